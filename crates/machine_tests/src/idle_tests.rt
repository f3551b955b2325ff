//! No source is idle: for each spot from which what a step writes is said to come there are two machines that differ
//! there, make the same step, and then hold different things where it wrote. Z and the banks are left out, where an
//! operand names them: what a step is tells them.

use cpu::{Cell, Machine, Processor, Spot};
use feed::{Feed, read};
use rope::{Rope, RopeFault};
use space::{Bank, Chan, Eras, Offset};
use std::alloc::Global;
use words::{Overflow, Word};

/// Words of each instruction that writes, with the operands that matter.
const BASIC: [u16; 48] = [
    0o00100, 0o10100, 0o10020, 0o14100, 0o20101, 0o20001, 0o20020, 0o22100, 0o22000, 0o22006,
    0o24100, 0o24000, 0o24020, 0o26100, 0o26000, 0o30100, 0o30006, 0o30020, 0o34013, 0o40100,
    0o40020, 0o44013, 0o50020, 0o50017, 0o52101, 0o52001, 0o52002, 0o52006, 0o54100, 0o54000,
    0o54005, 0o54006, 0o54020, 0o56100, 0o56001, 0o56002, 0o56006, 0o60100, 0o60000, 0o60020,
    0o64013, 0o70100, 0o70002, 0o70020, 0o74013, 0o22101, 0o26101, 0o40000,
];

/// The same under extracode.
const EXTRA: [u16; 35] = [
    0o00012, 0o00001, 0o00002, 0o01012, 0o01001, 0o01002, 0o01007, 0o02012, 0o03012, 0o03002,
    0o04012, 0o05012, 0o06012, 0o10100, 0o10020, 0o12100, 0o20100, 0o20020, 0o22100, 0o22000,
    0o24100, 0o26100, 0o30101, 0o30020, 0o34014, 0o40101, 0o40020, 0o44014, 0o50020, 0o60100,
    0o60020, 0o62100, 0o70100, 0o70020, 0o74013,
];

/// The cells in which the first of the words given stand: those of 0100, 0101, ZRUPT, BRUPT, CYR, L, Q, channel 012 and
/// A.
const CELLS: [u16; 9] = [0o100, 0o101, 0o15, 0o17, 0o20, 1, 2, 0o4012, 0];

/// What may be given.
const VALUES: [u16; 12] = [
    0, 1, 5, 0o12345, 0o20000, 0o37776, 0o37777, 0o40000, 0o40001, 0o65432, 0o77776, 0o77777,
];

/// What A is the sum of: without overflow, and with it on either side.
const SUMMANDS: [(u16, u16); 3] = [(5, 1), (0o37777, 0o37777), (0o40001, 0o40000)];

/// Words near an overflow of the low sum of DAS, which carries into a high sum that then overflows.
const NEAR: [u16; 12] = [0, 0o37777, 5, 0, 0o77776, 1, 5, 5, 0o37776, 1, 5, 5];

/// How many pairs of machines are tried for a source.
const TRIES: usize = 500;

/// An instruction: a word, under extracode or not.
#[derive(Clone, Copy)]
struct Row {
    extra: bool,
    word: u16,
}

/// A machine and what it runs.
#[derive(Drop)]
struct Running {
    processor: Processor,
    machine: Machine,
}

/// A rope with these words from address 04000 on.
fn rope_of(alloc: Global, words: &[u16]) -> Result<Rope, RopeFault> {
    let mut rope = Rope::empty(alloc)?;
    let bank = Bank::try_new(2).unwrap();
    for number in 0..0o2000u16 {
        let offset = Offset::try_new(number).unwrap();
        if let Some(word) = words.get(usize::from(number))
            && !rope.has(bank, offset)
        {
            rope.put(bank, offset, Word::of_low_bits(*word));
        }
    }
    Ok(rope)
}

/// What runs before an instruction that finds these words: in the cells, the tenth added to A, and the last two at
/// 04013 and 04014.
fn before(alloc: Global, row: Row, given: &[u16; 12]) -> Result<Running, RopeFault> {
    let words = [
        0o14015,
        given[0],
        given[1],
        given[2],
        given[3],
        given[4],
        given[5],
        given[6],
        given[7],
        given[8],
        given[9],
        given[10],
        given[11],
        0o34001,
        0o54100,
        0o34002,
        0o54101,
        0o34003,
        0o54015,
        0o34004,
        0o54017,
        0o34005,
        0o54020,
        0o34006,
        0o54001,
        0o34007,
        0o54002,
        0o34010,
        0o00006,
        0o01012,
        0o34011,
        0o64012,
        if row.extra { 0o00006 } else { 0o30000 },
        row.word,
    ];
    run_to(alloc, &words, Feed::empty(alloc), 21)
}

/// These words and inputs after some steps.
fn run_to(alloc: Global, words: &[u16], feed: Feed, steps: u8) -> Result<Running, RopeFault> {
    let mut processor = Processor::new(rope_of(alloc, words)?, feed);
    let mut machine = Machine::start();
    for _ in 0..steps {
        processor.step(&mut machine);
    }
    Ok(Running { processor, machine })
}

/// What a cell holds after the next step.
fn left(running: &mut Running, cell: Cell) -> u16 {
    running.processor.step(&mut running.machine);
    let number = cell.number();
    if number < 0o4000 {
        running.machine.reg(Eras::of_low_bits(number)).to_u16()
    } else {
        running
            .machine
            .channel(Chan::of_low_bits(number - 0o4000))
            .to_u16()
    }
}

/// The next of some numbers without an order.
fn draw(state: &mut u32) -> u16 {
    *state = state.wrapping_mul(1_664_525).wrapping_add(1_013_904_223);
    VALUES[((*state >> 16) % 12) as usize]
}

/// Words to be given.
fn drawn(state: &mut u32) -> [u16; 12] {
    let mut given = [0; 12];
    for index in 0..12 {
        given[index] = draw(state);
    }
    given
}

/// Which of the words given stands at a spot.
fn given_at(spot: Spot) -> Option<usize> {
    match spot {
        Spot::Cell(cell) => {
            let number = cell.number();
            for index in 0..9 {
                if CELLS[index] == number {
                    return Some(index);
                }
            }
            None
        }
        Spot::InRope(_, offset) => match offset.number() {
            0o13 => Some(10),
            0o14 => Some(11),
            _ => None,
        },
    }
}

/// Whether what a step is tells what stands at a spot: EB, FB and Z.
fn is_told(spot: Spot) -> bool {
    matches!(spot, Spot::Cell(cell) if (3..=5).contains(&cell.number()))
}

/// Whether an instruction is TS, of which A's overflow tells what the step is. Of another nothing that is given does.
fn is_transfer(row: Row) -> bool {
    !row.extra && row.word >> 10 == 0o26
}

/// How A overflows before TS.
fn overflow_before(row: Row, running: &Running) -> Overflow {
    if is_transfer(row) {
        running.machine.reg(Eras::A).overflow()
    } else {
        Overflow::No
    }
}

/// A spot from which what an instruction leaves in a cell is said to come.
#[derive(Clone, Copy)]
struct Source {
    row: Row,
    /// Of what A is the sum before TS.
    summands: (u16, u16),
    cell: Cell,
    /// Which of the words given stands there.
    index: usize,
}

impl Source {
    /// Whether two machines that differ there alone come to differ in the cell, by a step that is the same.
    fn matters(self, alloc: Global) -> Result<bool, RopeFault> {
        let row = self.row;
        let mut state = 1;
        for index in 0..TRIES {
            let mut given = if index < 12 { NEAR } else { drawn(&mut state) };
            if is_transfer(row) {
                (given[8], given[9]) = self.summands;
            }
            let mut others = given;
            if let Some(it) = others.get_mut(self.index) {
                *it = VALUES[index % 12];
            }
            let mut one = before(alloc, row, &given)?;
            let mut other = before(alloc, row, &others)?;
            if overflow_before(row, &one) == overflow_before(row, &other)
                && left(&mut one, self.cell) != left(&mut other, self.cell)
            {
                return Ok(true);
            }
        }
        Ok(false)
    }
}

/// The first source of an instruction that is idle, with the cell.
fn idle_source(
    alloc: Global,
    row: Row,
    summands: (u16, u16),
) -> Result<Option<(Cell, Spot)>, RopeFault> {
    let mut given = [5; 12];
    (given[8], given[9]) = summands;
    let running = before(alloc, row, &given)?;
    let (processor, machine) = (&running.processor, &running.machine);
    for cell in processor.targets(machine).as_slice() {
        for spot in processor.sources(machine, *cell).as_slice() {
            let is_needed = match given_at(*spot) {
                Some(index) => Source {
                    row,
                    summands,
                    cell: *cell,
                    index,
                }
                .matters(alloc)?,
                None => is_told(*spot),
            };
            if !is_needed {
                return Ok(Some((*cell, *spot)));
            }
        }
    }
    Ok(None)
}

#[test]
fn no_source_of_an_instruction_is_idle(rt: HostRuntime) -> Result<(), RopeFault> {
    for (extra, words) in [(false, BASIC.as_slice()), (true, EXTRA.as_slice())] {
        for word in words {
            let row = Row { extra, word: *word };
            for summands in SUMMANDS {
                let idle = idle_source(rt.alloc(), row, summands)?;
                assert_eq!(rt; idle, None, "{word:o}, under extracode: {extra}");
                if !is_transfer(row) {
                    break;
                }
            }
        }
    }
    Ok(())
}

/// Whether what the next step leaves in a cell comes from one spot alone, and differs where other words stand there.
fn comes_from(one: &mut Running, other: &mut Running, cell: Cell, spot: Spot) -> bool {
    let is_source = [&*one, &*other].iter().all(|it| it
        .processor
        .sources(&it.machine, cell)
        .as_slice()
        == [spot].as_slice());
    is_source && left(one, cell) != left(other, cell)
}

/// A counter's word comes from itself, and TIME2's by a carry; no other input has a source.
#[test]
fn no_source_of_an_input_is_idle(rt: HostRuntime) -> Result<(), RopeFault> {
    let rows: [(u16, &[u8]); 9] = [
        (0o24, b"8 TIME1 PINC"),
        (0o25, b"8 TIME1 PINC"),
        (0o31, b"8 TIME6 DINC"),
        (0o32, b"8 CDUX PCDU"),
        (0o33, b"8 CDUY MCDU"),
        (0o37, b"8 PIPAX PINC"),
        (0o40, b"8 PIPAY MINC"),
        (0o45, b"8 INLINK SHINC"),
        (0o45, b"8 INLINK SHANC"),
    ];
    for (number, text) in rows {
        let cell = Cell::of_place(Eras::of_low_bits(number));
        let held = |word: u16| {
            let words = [
                0o34005,
                0o54025,
                0o34006,
                0o54000 | number,
                0o14004,
                0o37777,
                word,
            ];
            let mut text = text;
            let feed = read(rt.alloc(), &mut text).expect(&rt, "a feed");
            run_to(rt.alloc(), &words, feed, 4)
        };
        let (mut one, mut other) = (held(5)?, held(6)?);
        assert!(rt;
            comes_from(&mut one, &mut other, cell, Spot::Cell(cell)),
            "{number:o}"
        );
    }
    Ok(())
}

/// BRUPT takes the word at Z, at 0101 after RELINT at 0100.
#[test]
fn no_source_of_an_entry_is_idle(rt: HostRuntime) -> Result<(), RopeFault> {
    let held = |word: u16| {
        let words = [0o34005, 0o54100, 0o34006, 0o54101, 0o00100, 0o00003, word];
        let mut text: &[u8] = b"0 RUPT 1";
        let feed = read(rt.alloc(), &mut text).expect(&rt, "a feed");
        run_to(rt.alloc(), &words, feed, 7)
    };
    let (mut one, mut other) = (held(5)?, held(6)?);
    let brupt = Cell::of_place(Eras::BRUPT);
    let at_z = Spot::Cell(Cell::of_place(Eras::of_low_bits(0o101)));
    assert!(rt; comes_from(&mut one, &mut other, brupt, at_z));
    Ok(())
}
