//! What the numbers of warnings mean: the rows of the manual's table of them.

ghost use Rattle.std.specs.Prelude.{◌≡◌, false, MatchOption};
ghost use Rattle.explain.specs.Refusals.{warning_meaning, is_warned};

use crate::refusals::Refusal;

/// The numbers, rising.
pub const WARNING_NUMBERS: [u8; 17] = [1, 2, 3, 4, 5, 6, 7, 8, 9, 10, 11, 12, 13, 14, 15, 16, 17];

/// The warning of a number, where there is one, and what draws it.
pub fn warning_of(number: u8) -> Option<Refusal>
    ensures { MatchOption result (is_warned number ≡ false) (λ r. r.number ≡ number) }
{
    let causes: &'static [u8] = match number {
        1 => CAUSES_1,
        2 => CAUSES_2,
        3 => CAUSES_3,
        4 => CAUSES_4,
        5 => CAUSES_5,
        6 => CAUSES_6,
        7 => CAUSES_7,
        8 => CAUSES_8,
        9 => CAUSES_9,
        10 => CAUSES_10,
        11 => CAUSES_11,
        12 => CAUSES_12,
        13 => CAUSES_13,
        14 => CAUSES_14,
        15 => CAUSES_15,
        16 => CAUSES_16,
        17 => CAUSES_17,
        _ => return None,
    };
    Some(Refusal { number, causes })
}

/// What a number means, in a line.
pub(crate) fn warning_meaning(number: u8) -> &'static [u8]
    ensures { result.now ≡ warning_meaning number }
{
    match number {
        1 => b"an operator's name stands as a label",
        2 => b"a number is read as a register or a counter",
        3 => b"two words are taken of a name for one",
        4 => b"the program runs on to a constant, or where no word stands",
        5 => b"a vector's words run on into the next vector",
        6 => b"a switched erasable bank is reached, and no line sets EB",
        7 => b"a register's name stands for another place",
        8 => b"no operand names a label",
        9 => b"a switched bank of fixed memory is reached, and no line sets FB",
        10 => b"a word is written on a channel that is a register, and does not go out",
        11 => b"a constant or an address stands where a run starts",
        12 => b"an interrupt's routine changes A, L or Q and has not kept it",
        13 => b"an interrupt's routine stands, and no line is RESUME",
        14 => b"the program runs on over the vectors, while RELINT stands",
        15 => b"a word is reserved where an earlier line reserves one",
        16 => b"nothing leads to an instruction behind a jump",
        17 => b"a word of a flight source is not certain",
        _ => b"",
    }
}

const CAUSES_1: &[u8] = b"
- an operator's name in the first column, where it is a label; with --flight those of its forms too
  > RETURN
  Cure: a blank before it
";

const CAUSES_2: &[u8] = b"
- CA, CAE, CS, AD, MASK, MSK, CCS, MP, DV or SU of an octal number from 0 to 60, without an offset, and not after \
    INDEX: a register or a counter, and not the number
  >  CA 5
  Cure: an operand is an address, so the number has a line of its own behind the last jump: FIVE OCT 5, and here CA FIVE
";

const CAUSES_3: &[u8] = b"
- DXCH, DAS, DCA or DCS, without an offset, of a label beside which ERASE stands alone, and reserves one word
     SETLOC 100
    X ERASE
     SETLOC 4000
  >  DXCH X
  Cure: X ERASE +1
";

const CAUSES_4: &[u8] = b"
- an instruction after which the program runs on to a constant, or where no word stands: the next line with a word or \
    another location has a constant or an address, or none stands. Not told of an instruction that leaves, as TC, \
    TCF, RETURN, RESUME, DTCB, DTCF, TCAA, XLQ and XXALQ do, and TS, XCH, LXCH, QXCH and DXCH of an octal number from \
    0 to 60, Z, FB, FBANK, BB or BBANK; of one whose label is read, as by CAF, and that is executed elsewhere; and \
    with --flight
  > F CA O
    O OCT 1
  Cure: TCF or RETURN behind it, and constants elsewhere
";

const CAUSES_5: &[u8] = b"
- the fifth word after SETLOC to a vector, 4004 to 4050, where the fourth goes on to it: an interrupt enters there
     SETLOC 4004
     CA X
     CA X
     CA X
     CA X
  >  TS X
    D TCF D
    X OCT 1
  Cure: four words that end in TCF, and the routine elsewhere
";

const CAUSES_6: &[u8] = b"
- an instruction whose operand is a symbol, with its offset a place of 1400 to 3777, which are switched banks, where \
    no line of the source sets EB: none is DTCB or DTCF, none writes 3 or 6, as TS does, and DXCH and DAS of 2 or 5, \
    none writes 0 to 6 after INDEX, and none a symbol without a value
     SETLOC 2000
    V ERASE
     SETLOC 4000
  >  TS V
    D TCF D
  Cure: CA NAME and TS 3, where NAME ECADR V stands
";

const CAUSES_7: &[u8] = b"
- the name of a register or a counter, ZERO left out, as a label of another place: beside a word, ERASE or nothing, \
    or EQUALS or = of another octal number
     SETLOC 100
  > Q ERASE
  Cure: Q EQUALS 2
";

const CAUSES_8: &[u8] = b"
- with --unused: a label that no operand names
  > X OCT 5
  Cure: take it out, or name it
";

const CAUSES_9: &[u8] = b"
- an instruction in bank 2 or 3 whose operand has its place in another bank, 0 left out, where FB stands at first, \
    while no line of the source sets FB: none is DTCB or DTCF, none writes 4 or 6, as TS does, and DXCH and DAS of 3 \
    or 5, none writes 0 to 6 after INDEX, and none a symbol without a value
  >  TC R
    D TCF D
     BANK 10
    R RETURN
  Cure: CA NAME and TS 4, where NAME FCADR R stands; for banks 40 to 43 WRITE 7 of 100 too
";

const CAUSES_10: &[u8] = b"
- WRITE, WAND or WOR of channel 1 or 2 by its number: these are L and Q, and nothing goes out
     EXTEND
  >  WRITE 1
    D TCF D
  Cure: the channel that is meant, as 10; where the register is, LXCH or QXCH, or L EQUALS 1 and WRITE L
";

const CAUSES_11: &[u8] = b"
- a constant or an address at 4000, where a run starts, in a source with an instruction; and not with --flight
  > X OCT 5
     CA X
    D TCF D
  Cure: the program first, or a jump to it, and constants behind its last jump
";

const CAUSES_12: &[u8] = b"
- an instruction on the straight way from a vector, 4004 to 4050, without labels but the one to which its TCF, BZF or \
    BZMF leads, that changes A, L or Q, as CA, MP and TC of a label do, where none before it has stored that, as XCH, \
    LXCH and QXCH do; in a source with RESUME, and not with --flight
    D TCF D
     SETLOC 4024
  >  CA X
     RESUME
    X OCT 1
  Cure: XCH, LXCH or QXCH of a cell before it, and again before RESUME
";

const CAUSES_13: &[u8] = b"
- an instruction without a label at a vector, while RELINT stands in the source, and no RESUME, nor 17 or 50017 as an \
    operand; and not with --flight
     RELINT
    D TCF D
     SETLOC 4024
  >  TCF D
  Cure: RESUME as the last instruction of the routine
";

const CAUSES_14: &[u8] = b"
- an instruction at 4004, where the word before goes on to it, while RELINT stands in the source, and no SETLOC to a \
    vector; and not with --flight
     RELINT
     CA X
     TS X
     CA X
  >  TS X
    D TCF D
    X EQUALS 100
  Cure: TCF before it, and the program from 4054 on; behind SETLOC to its vector the routine of each interrupt
";

const CAUSES_15: &[u8] = b"
- a label beside ERASE alone, at a place where ERASE alone stands beside an earlier one; and not with --flight
     SETLOC 100
    X ERASE
     SETLOC 100
  > Y ERASE
  Cure: no SETLOC between the two; for two names of one word Y EQUALS X
";

const CAUSES_16: &[u8] = b"
- an instruction without a label behind TCF, RETURN or RESUME; not TC, TCF or NOOP, not at a vector, nor within four \
    words behind CCS, or two behind TS, TC or INDEX; in a source in which jumps and addresses are labels alone, and \
    not with --flight
     TCF D
  >  CA X
    D TCF D
    X OCT 1
  Cure: a label and a jump to it, or leave it out
";

const CAUSES_17: &[u8] = b"
- with --flight, in a source without faults: 2CADR of a place of banks 030 to 037, whose second word may hold a \
    superbank, and 2CADR, BBCON or -2CADR behind an EBANK= that stands before an earlier 2CADR, and may hold for that \
    one alone; the word stays as without --flight
     SETLOC 4000
     EBANK= 1400
     2CADR F
  >  2CADR F
    F TCF F
  Cure: for EBANK=, one on the line before it
";
