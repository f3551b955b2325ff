//! What the numbers of refusals mean: the rows of the manual's section on them.

ghost use Rattle.std.specs.Prelude.{◌≡◌, false, MatchOption};
ghost use Rattle.explain.specs.Refusals.{meaning, is_told};

/// The numbers, rising.
pub const NUMBERS: [u8; 36] = [
    2, 3, 4, 5, 6, 7, 10, 11, 12, 13, 14, 15, 16, 17, 18, 19, 20, 21, 22, 23, 24, 25, 26, 30, 31,
    32, 33, 34, 35, 36, 40, 41, 42, 50, 51, 52,
];

/// A number of a refusal: and what draws it.
#[derive(Clone, Copy, Drop)]
pub struct Refusal {
    /// The number.
    pub number: u8,
    /// Each mistake that draws it, with a source or a feed where one is short, and its cure.
    pub causes: &'static [u8],
}
/// The refusal of a number, where there is one.
pub fn refusal_of(number: u8) -> Option<Refusal>
    ensures { MatchOption result (is_told number ≡ false) (λ r. r.number ≡ number) }
{
    let causes: &'static [u8] = match number {
        2 => CAUSES_2,
        3 => CAUSES_3,
        4 => CAUSES_4,
        5 => CAUSES_5,
        6 => CAUSES_6,
        7 => CAUSES_7,
        10 => CAUSES_10,
        11 => CAUSES_11,
        12 => CAUSES_12,
        13 => CAUSES_13,
        14 => CAUSES_14,
        15 => CAUSES_15,
        16 => CAUSES_16,
        17 => CAUSES_17,
        18 => CAUSES_18,
        19 => CAUSES_19,
        20 => CAUSES_20,
        21 => CAUSES_21,
        22 => CAUSES_22,
        23 => CAUSES_23,
        24 => CAUSES_24,
        25 => CAUSES_25,
        26 => CAUSES_26,
        30 => CAUSES_30,
        31 => CAUSES_31,
        32 => CAUSES_32,
        33 => CAUSES_33,
        34 => CAUSES_34,
        35 => CAUSES_35,
        36 => CAUSES_36,
        40 => CAUSES_40,
        41 => CAUSES_41,
        42 => CAUSES_42,
        50 => CAUSES_50,
        51 => CAUSES_51,
        52 => CAUSES_52,
        _ => return None,
    };
    Some(Refusal { number, causes })
}

/// What a number means, in a line.
pub fn meaning(number: u8) -> &'static [u8]
    ensures { result.now ≡ meaning number }
{
    match number {
        2 => b"memory was refused",
        3 => b"the image ends before its 73,728 bytes",
        4 => b"bytes stand after the 73,728 of the image",
        5 =>
            b"the lowest bit of two bytes of the image is wrong: in version 1 it is 1, in version 2 they have an even \
                number of one bits",
        6 => b"a file could not be opened or read",
        7 => b"a file could not be made, or a write failed",
        10 => b"a byte stands here that a line may not hold",
        11 => b"the line has more than 120 bytes",
        12 => b"the source has more than 65536 lines",
        13 => b"the label has no label's form, or is missing, or is not taken",
        14 => b"an earlier line has this label",
        15 => b"this is no operator",
        16 => b"the operand is missing, or not taken, or has no operand's form",
        17 => b"no line defines this symbol",
        18 => b"no earlier line defines this symbol",
        19 => b"there is no such bank for this operator",
        20 => b"this stands past the end of its bank, or of erasable memory",
        21 => b"a word stands at this place already",
        22 => b"words stand in fixed memory, and the location is in erasable memory",
        23 => b"this is an extracode, and EXTEND does not stand before it",
        24 => b"this is no extracode, and EXTEND stands before it",
        25 => b"the operator takes another kind of place, or a channel",
        26 => b"the number is out of its range, or leads out of its bank",
        30 => b"a line of the feed is no input and no series",
        31 => b"the cycle of an input is below that of the input before it",
        32 => b"the feed has more than 65,536 inputs besides its series",
        33 => b"the counter does not take the sequence",
        34 => b"a source, a feed or a table of names has more than 8,388,608 bytes",
        35 => b"the feed has more than 16 series",
        36 => b"a line of the table of names is no name with its place",
        40 => b"a session makes no more steps than 1,099,511,627,774",
        41 => b"the session has not made this step yet",
        42 => b"the cycle of the input has passed already",
        50 => b"the line is no command of the session",
        51 => b"the command has more than 80 bytes",
        52 => b"16 breakpoints stand, and there are no more",
        _ => b"",
    }
}

const CAUSES_2: &[u8] = b"
- a machine with little memory, or a limit of the shell
  Cure: ulimit -v unlimited
";

const CAUSES_3: &[u8] = b"
- a download that was cut, or a file that is no image
  Cure: fetch it again; a source is run without --image
";

const CAUSES_4: &[u8] = b"
- a file of another tool with a head or a tail
  Cure: section 11 of the manual
";

const CAUSES_5: &[u8] = b"
- an image of version 2 read as version 1, or the other way round
  Cure: --rope 1, or agcws upgrade
- a word of the image with a wrong bit
  Cure: agcws parity tells which, --parity ignore reads it as it is
- another file than an image, as a source after --image
  Cure: no --image
";

const CAUSES_6: &[u8] = b"
- no such file, or a directory
  Cure: see its path
";

const CAUSES_7: &[u8] = b"
- a full disk, a path without a folder, or a pipe whose reader has ended
  Cure: section 8 of the manual, E7 in a pipe
";

const CAUSES_10: &[u8] =
    b"A line holds a byte that is neither a printing ASCII character (octal 40 to 176) nor a tab. Comments count.

- a byte that is neither a printing ASCII character nor a blank nor a tab, in a comment too: lines that end by \
    carriage return and line feed, as Windows writes them
  >  OCT 1\\r
  Cure, of a source alone: tr -d '\\r' < SRC > NEW

- lines that end by carriage returns alone
  >  OCT 1\\r OCT 2\\r
  Cure, of a source alone: tr '\\r' '\\n' < SRC > NEW

- a byte order mark at the beginning
  > \\xEF\\xBB\\xBF OCT 1
  Cure: tail -c +4 SRC > NEW

- a letter beyond ASCII
  >  OCT 1 # 2 \\xC2\\xB5s
  Cure: write it in ASCII: us for us, in Greek

- a blank that is none, as pages of the web have
  > \\xC2\\xA0OCT 1
  Cure: type the blanks anew

- a form feed between pages
     OCT 1
  > \\f OCT 2
  Cure, of a source alone: tr -d '\\f' < SRC > NEW

- a rope image in place of a source
  Cure: run, trace, cover and debug take it with --image
";

const CAUSES_11: &[u8] = b"A line has more than 120 bytes, blanks and comment included.

- a line above 120 bytes
  Cure: part the comment into two lines, or leave blanks out
";

const CAUSES_12: &[u8] = b"The source has more than 65,536 lines.

- a line 65,537; with --flight a line 262,145
  Cure: part the program
";

const CAUSES_13: &[u8] =
    b"A label has no label's form, or stands where none is taken, or is missing where one is needed. A label has 1 to \
    8 characters, none of them $, does not begin with a sign, and is no number.

- a label above 8 characters
  > LONGLABEL OCT 5
  Cure: 8 characters are the most

- a label that is a number
  > 12D OCT 5
  Cure: begin it with a letter

- a label that begins with a sign
  > +1 OCT 5
  Cure: begin it with a letter

- a label with $
  > A$ OCT 5
  Cure: leave the $ out

- no label, where EQUALS or = needs one
  >  EQUALS 5
  Cure: NAME EQUALS VALUE, the name in the first column

- a label, where SETLOC, BANK, BLOCK and EBANK= take none
  > X SETLOC 4000
  Cure: the label on the line after
";

const CAUSES_14: &[u8] = b"An earlier line has this label already.

- a label that stands on an earlier line
    X OCT 1
  > X OCT 2
  Cure: give one of the two another name
";

const CAUSES_15: &[u8] =
    b"The operator is not one of the language. The operator is the first field after the label; a field in the first \
    column is a label.

- an operator that is not known
  >  FROB 1
  Cure: agcws check names a near one

- an operator that is left out here (section 10)
  >  2DEC .75
  Cure: write its words by hand, as section 10 of the manual shows

- small letters
  >  ca 5
  Cure: capitals

- a label after a blank, which is taken for the operator
  >  FIVE OCT 5
  Cure: the label begins in the first column

- an operator in the first column, whose operand is taken for the operator
  > CA FIVE
    FIVE OCT 5
  Cure: a blank before the operator

- EDRUPT, which a source cannot name
  >  EDRUPT 0
  Cure: leave it out: here it does nothing (section 10)
";

const CAUSES_16: &[u8] =
    b"The operand is missing, or is not taken, or has no operand's form, or a further field stands.

- no operand, where one is needed
  >  CA
  Cure: name the place

- BANK or BLOCK without a number
  >  BANK
  Cure: name the bank

- an operand, where none is taken
  >  NOOP 5
  Cure: take it out, or put # before a comment

- a digit 8 or 9 without D
  >  CA 18
  Cure: numbers are octal: 22, or 18D

- a digit 8 or 9 in OCT
  >  OCT 8
  Cure: DEC takes decimal digits

- a sign in OCT
  >  OCT -1
  Cure: the complement: OCT 77776 is -1; or DEC -1

- a comment without #
  >  OCT 1 one
  Cure: # before the comment

- several numbers behind OCT or DEC
  >  DEC 10, 20, 30
  Cure: a line for each number

- a fourth field
  >  CA 5 +1 +1
  Cure: one offset is the most

- a blank between the sign and the number of an offset
    X OCT 1
  >  CA X + 1
  Cure: X +1

- a sign before a symbol
    ONE OCT 1
  >  CAF -ONE
  Cure: CS ONE loads the complement

- a symbol above 8 characters, or with $
  >  CA LONGLABEL
  Cure: 8 characters are the most

- a scale factor
  >  DEC 5 B-14
  Cure: work the scaled number out: DEC takes whole numbers and fractions

- D in DEC, which is decimal
  >  DEC 5D
  Cure: leave the D out

- a point without decimals, or above 9 of them
  >  DEC 5.
  Cure: DEC 5, or 1 to 9 decimals

- ERASE with anything but a plus sign and a number
    X EQUALS 1
  >  ERASE X
  Cure: ERASE alone is one word, ERASE +1 two

- a symbol in BANK or BLOCK
    X EQUALS 4
  >  BANK X
  Cure: the number itself
";

const CAUSES_17: &[u8] =
    b"No line of the source defines the symbol. Nothing is defined beforehand, no register either.

- a symbol that is defined nowhere
  >  CA NOSUCH
  Cure: a word that changes: NAME ERASE, among lines after SETLOC 100; a number: NAME DEC 5, behind the last jump; \
    where to go: NAME in the first column of that line; a channel: NAME EQUALS 11

- a register, a counter or a vector without its own EQUALS
  >  CA A
  Cure: A EQUALS 0, L EQUALS 1, Q EQUALS 2 and so on

- an offset without a blank before it: X+1 is a symbol
    X OCT 1
  >  CA X+1
  Cure: CA X +1

- a colon behind a label: FIVE: is the symbol
    FIVE: OCT 5
  >  CA FIVE
  Cure: FIVE OCT 5, the label without a colon

- a comma: X,1 is a symbol
    X OCT 1
  >  CA X,1
  Cure: INDEX on the line before

- other letters than the label's
    FIVE OCT 5
  >  CA five
  Cure: small and capital letters are told apart
";

const CAUSES_18: &[u8] =
    b"Where the symbol decides where things stand (SETLOC, EQUALS, =, EBANK=), an earlier line has to define it.

- a symbol in SETLOC, EQUALS, = or EBANK= that only a later line defines
  > P EQUALS R
    R EQUALS 5
  Cure: put the line that defines it before

- one that its own line defines
  > P EQUALS P +1
  Cure: give it another name, or its value by a number

- one that no line defines
  >  SETLOC NOSUCH
  Cure: define it before: NAME EQUALS NUMBER, or as a label
";

const CAUSES_19: &[u8] = b"No such bank: BANK takes 0 to 43, octal, and BLOCK 2 and 3.

- BANK above 043
  >  BANK 44
  Cure: octal, or a D behind a decimal number

- a number above 077777 there
  >  BANK 100000
  Cure: 43 is the last bank

- BLOCK of another bank than 2 or 3
  >  BLOCK 4
  Cure: BANK 4

- a decimal bank without D, which is read as octal
  >  BANK 50
  Cure: octal, or a D behind a decimal number
";

const CAUSES_20: &[u8] =
    b"A word, a label or an ERASE stands past the end of its bank, or of erasable memory.

- a word beyond the end of a bank
     SETLOC 5777
     OCT 1
  >  OCT 2
  Cure: go on in another bank: BANK or SETLOC

- a label beyond it
     SETLOC 5777
     OCT 1
  > X
  Cure: go on in another bank: BANK or SETLOC

- the second word of 2CADR beyond it
     SETLOC 5777
  >  2CADR 4000
  Cure: go on in another bank: BANK or SETLOC

- ERASE beyond the end of erasable memory
     SETLOC 3777
  >  ERASE +1
  Cure: fewer words, or SETLOC of an earlier place

- ERASE of more than 077777 words
     SETLOC 100
  >  ERASE +100000
  Cure: fewer words: there are 4000, octal
";

const CAUSES_21: &[u8] = b"A word stands at this place already.

- a word where one stands already
     OCT 1
     SETLOC 4000
  >  OCT 2
  Cure: mend the SETLOC, or shorten what runs into it: a vector has four words, so it begins by DXCH and TCF

- a vector of more than four words
     SETLOC 4024
     TC 0
     TC 0
     TC 0
     TC 0
     TC 0
     SETLOC 4030
  >  TC 0
  Cure: mend the SETLOC, or shorten what runs into it: a vector has four words, so it begins by DXCH and TCF
";

const CAUSES_22: &[u8] = b"Words stand in fixed memory, and the location is in erasable memory.

- a word in erasable memory
     SETLOC 100
  >  OCT 1
  Cure: SETLOC 4000 before the first word after the variables

- a word at 02000 to 03777, which SETLOC takes as erasable
     SETLOC 2000
  >  OCT 1
  Cure: SETLOC 4000 before the first word after the variables
";

const CAUSES_23: &[u8] =
    b"The instruction is an extracode, which EXTEND on the line before has to announce.

- an extracode without EXTEND before it
  >  MP 5
  Cure: EXTEND on a line of its own before it, with a blank before EXTEND

- EXTEND in the first column, where it is a label
    EXTEND
  >  MP 5
  Cure: EXTEND on a line of its own before it, with a blank before EXTEND

- a second extracode after one EXTEND
     EXTEND
     MP 5
  >  MP 6
  Cure: EXTEND on a line of its own before it, with a blank before EXTEND

- EXTEND by its word alone
     OCT 6
  >  MP 5
  Cure: EXTEND on a line of its own before it, with a blank before EXTEND
";

const CAUSES_24: &[u8] = b"After EXTEND only an extracode may stand.

- EXTEND before an instruction that is no extracode
     EXTEND
  >  CA 5
  Cure: take EXTEND out, or put it right before its extracode

- EXTEND twice
     EXTEND
  >  EXTEND
  Cure: take EXTEND out, or put it right before its extracode

- EXTEND before a constant, or before NOOP
     EXTEND
  >  OCT 5
  Cure: take EXTEND out, or put it right before its extracode

- an INDEX under EXTEND, and then no extracode
     EXTEND
     INDEX 5
  >  CA 5
  Cure: take EXTEND out, or put it right before its extracode
";

const CAUSES_25: &[u8] =
    b"The operator takes another kind of place, or a channel: erasable (0 to 1777), fixed (2000 on), or a number.

- an instruction that stores into fixed memory
  >  TS 4000
  Cure: name a word of erasable memory: SETLOC 100 and X ERASE

- CCS or INDEX of fixed memory
  >  INDEX 4000
  Cure: copy the word to erasable memory first: CA, TS

- an extracode of 10 bits on fixed memory, as SU, DV, MSU
     EXTEND
  >  SU 4000
  Cure: CS and AD subtract a constant: X less K is CS K, AD X; for the others copy the word to erasable memory first: \
    CA, TS

- TCF to erasable memory
  >  TCF 100
  Cure: TC goes there

- BZF or BZMF to erasable memory
     EXTEND
  >  BZF 100
  Cure: jump to fixed memory, and by TC from there

- CAE of fixed memory
  >  CAE 4000
  Cure: CA or CAF

- CAF of erasable memory
  >  CAF 100
  Cure: CA or CAE

- a channel by a place, as a label is one
     EXTEND
  >  READ X
    X OCT 1
  Cure: the number, or NAME EQUALS NUMBER

- a channel above 0777
     EXTEND
  >  READ 1000
  Cure: channels are 0 to 777, octal

- CADR, FCADR or 2CADR of an erasable place
  >  CADR 100
  Cure: ECADR, or ADRES

- ECADR or EBANK= of a fixed place
  >  ECADR 4000
  Cure: CADR, or FCADR; EBANK= takes an erasable place

- ERASE in fixed memory
  >  ERASE
  Cure: SETLOC of an erasable place before it, as SETLOC 100
";

const CAUSES_26: &[u8] = b"A number is out of its range, or an offset leads out of its bank.

- a number above 077777
  >  OCT 100000
  Cure: 15 bits are the most

- a whole number of DEC above 16383
  >  DEC 16384
  Cure: two words: the upper one, then the lower

- a fraction of DEC from 1 on, or one that comes to 1 in 14 bits
  >  DEC 1.0
  Cure: scale it below 1

- an address from 010000 on
  >  CA 10000
  Cure: addresses are 0 to 7777; a bank is reached by BANK and FB

- an offset out of its bank
    X OCT 1
  >  CA X +2000
  Cure: stay in the bank

- NOOP at the last offset of a bank, which has no next one
     SETLOC 5777
  >  NOOP
  Cure: CA 0 in its place

- SETLOC of a number without a place
  >  SETLOC 10000
  Cure: SETLOC takes 0 to 7777; other banks by BANK
";

const CAUSES_30: &[u8] = b"
- no cycle in front
  > CHAN 15 21
  Cure: write the line as section 6 of the manual shows

- a sign or a letter in the cycle
  > -1 TIME1 PINC
  Cure: write the line as section 6 of the manual shows

- a cycle of more than 15 digits
  > 1000000000000000 TIME1 PINC
  Cure: write the line as section 6 of the manual shows

- a comma
  > 5, CHAN 15 21
  Cure: write the line as section 6 of the manual shows

- a name that is no counter's
  > 5 KEYRUPT1
  Cure: write the line as section 6 of the manual shows

- small letters
  > 5 time1 pinc
  Cure: write the line as section 6 of the manual shows

- a counter without its sequence
  > 5 TIME1
  Cure: write the line as section 6 of the manual shows

- a field too many
  > 5 TIME1 PINC 1
  Cure: write the line as section 6 of the manual shows

- channel 1 or 2, or one above 0777
  > 0 CHAN 1 5
  Cure: write the line as section 6 of the manual shows

- a digit 8 or 9 in a channel or a word
  > 5 CHAN 18 0
  Cure: write the line as section 6 of the manual shows

- a word above 077777
  > 5 CHAN 15 100000
  Cure: write the line as section 6 of the manual shows

- an interrupt that is not one of 1 to 10
  > 0 RUPT 11
  Cure: write the line as section 6 of the manual shows

- a carriage return, or another byte that is not allowed, in a comment too
  > 5 TIME1 PINC\\r
  Cure: write the line as section 6 of the manual shows

- a line above 120 bytes
  Cure: write the line as section 6 of the manual shows

- a series with a number missing
  > EVERY 0 853 5 TIME1 PINC
  Cure: write the line as section 6 of the manual shows

- a series whose num, den or count is 0
  > EVERY 0 0 1 5 TIME1 PINC
  Cure: write the line as section 6 of the manual shows

- a series with one of more than 9 digits
  > EVERY 0 1000000000 1 5 TIME1 PINC
  Cure: write the line as section 6 of the manual shows

- a series with the cycle of its input
  > EVERY 0 853 1 5 0 TIME1 PINC
  Cure: write the line as section 6 of the manual shows
";

const CAUSES_31: &[u8] = b"
- a cycle below that of the input before, series left out
    5 TIME1 PINC
  > 4 RUPT 1
  Cure: put the lines in the order of their cycles, or write a series
";

const CAUSES_32: &[u8] = b"
- more than 65,536 inputs, series left out, told without a line
  Cure: write what comes again and again as a series
";

const CAUSES_33: &[u8] = b"
- a sequence that the counter does not take
  > 0 TIME6 PINC
  Cure: TIME6 takes DINC, the other timers PINC; see the table of agcws run --help

- a sequence of another counter's kind
  > 0 CDUX PINC
  Cure: TIME6 takes DINC, the other timers PINC; see the table of agcws run --help
";

const CAUSES_34: &[u8] = b"
- a file that is no source and no feed
  Cure: see its path
";

const CAUSES_35: &[u8] = b"
- a series 17
  Cure: write a series as inputs
";

const CAUSES_36: &[u8] = b"
- a name without a place
    START 4000
  > LOOP
  Cure: write its place, as 02,4001, as 02,0001, as E3,1400, or as a number

- a field more
  > LOOP 02,4001 TCF
  Cure: a line has a name and its place, or a name, FIXED, ERASABLE or NUM, and what a listing says of it

- a name above 8 characters
  > LONGLABEL 5
  Cure: shorten it

- a bank above 43, or an address that no word of the bank has
  > LOOP 02,2001
  Cure: the words of bank 2 have the addresses 4000 to 5777, those of bank 3 6000 to 7777, all others 2000 to 3777

- a carriage return, or another byte that is not allowed
  > LOOP 4001\\r
  Cure: tr -d '\\r' < FILE > NEW
";

const CAUSES_40: &[u8] = b"
- step, run or on, where this many steps are made
  Cure: back and goto lead to each step that was made
";

const CAUSES_41: &[u8] = b"
- goto, changed or differs with a step above the last that was made
  Cure: step or run first: they make new steps
";

const CAUSES_42: &[u8] = b"
- add of an input whose cycle is not above the cycles of the last step that was made
  Cure: a later cycle; or begin the session anew, and add before run. agcws whatif tries inputs at any cycle
";

const CAUSES_50: &[u8] = b"
- a word that is no command; commands are written in small letters
  Cure: help, in a session of agcws debug --extended, lists the commands

- a field too many, or one that is missing or of another form
  Cure: agcws debug --extended says after E50 COMMAND what is wrong; help and a command tell its form

- a number of a place, a channel or a word with a digit 8 or 9
  Cure: they are octal; steps and cycles are decimal

- a symbol that the source does not define, or one of fixed memory where a word that changes is asked for
  Cure: sym and its name tell what it stands for
";

const CAUSES_51: &[u8] = b"
- a line above 80 bytes, its comment too
  Cure: a shorter comment, or none
";

const CAUSES_52: &[u8] = b"
- a breakpoint 17
  Cure: clear takes all away, and clear i, in agcws debug --extended, that with the number i
";
