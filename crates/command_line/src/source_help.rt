//! The help of the subcommands of sources and tests: files, output and exit status.

/// What `agcws asm --help` tells after its arguments.
pub const ASM_HELP: &str = "Files:
  SRC   a source in the assembler's language, at most 65536 lines of at most
        120 bytes. A label begins at the first byte of its line; operator,
        operand and offset follow, and # begins a comment.
        With --flight it may have forms of flight programs: see the manual;
        and at most 262144 lines, whose comments may be of any length.
  ROPE  the rope image, 73728 bytes: banks 2, 3, 0, 1, 4 to 43 (octal), each
        of 1024 words, each word as two bytes, high byte first, of twice the
        word. In version 2 the lowest bit is a parity bit, by which every two
        bytes have an odd number of one bits; in version 1 it is 0.
        The file is made at the first write: a refused source leaves none. It
        is written beside its place, as ROPE.part0, and put there whole: where
        that fails an old image stands as it was.
  ROPE may not end in .agc or .feed, nor be the file SRC, by whatever path.
        With --sums each bank with a word has three more, right after its last
        one, as flight ropes have them: two TC to themselves, and the word that
        makes the bank's sum its number, or the complement of its number where
        the sum before it is negative.
  FILE  an image of the version of ROPE, or a text of octal words.
        With --holes each line of the interpretive language is a hole: a word
        that is not made, but is 00000, or the word of FILE at its place.
        A bank with a hole has no sum until FILE fills it: --sums beside --holes
        needs --fill, and the sums are those of the filled words.
  F=W   forms of which it is not certain what they mean, and what is assumed of
        them, with commas between: MM=DEC, NV=VN, 2BCADR=2CADR, DNPTR=CA,
        BBCON*=66100, ERASE=COUNT, ERASE=EQUALS, 8=8D; else each is refused. In
        @FILE lines have them, and # begins a comment. A row of such a line
        shows what is assumed of it, and ends in # ASSUMED and its F=W.

Output: the listing, a row for each line of the source with its number, its
place and its word in octal, and then the symbols. With --xref after them, as
comments, for each name that a line defines, in the order of the lines, a row
for each line that mentions it, as
  #     3 SUM      DEFINED
with the line's number, the name, and DEFINED, or what the line does with it:
READ, WRITE or CHANGE, which reads and writes; JUMP; ADDRESS, which a constant
is; CHANNEL; or DIRECTIVE, which makes no word. With --holes the rows of holes
show OCT 0 and the line, and after the symbols each stands with the word of the
image, as # HOLE 02,4001 00000, and how many they are, as # HOLES 3.

Exit status:
  0  done
  1  the source is refused; or with --sums a bank has no room for three words
     more, which a line to standard error tells by the bank's number
  2  the command line is wrong
  3  a file, a device or memory failed
Status 1 and 3 print one line to standard error, as agcws: E14 LINE 9. What the
number means: agcws explain E14. All faults, and whether the file is a source or
of another kind: agcws check SRC.";

/// What `agcws check --help` tells after its arguments.
pub const CHECK_HELP: &str = "Files:
  SRC   a source, as agcws asm takes it
  FEED  feeds, as agcws run takes one; none, or as many as are given

Output: for each fault of the source, in the order of lines and columns,
  my.agc:2:17: error E17: no line defines FIV
      2 | START   CA      FIV
        |                 ^^^
        = did you mean FIVE?
with the file, the line and the column, what is wrong and how it is mended,
where that is sure. A fault that follows from another, as that of a symbol
whose own line is refused, is left out. Then in the same form the first fault of
each feed that has one, and in the last line how many there are. agcws explain
E17 tells what draws E17, and its cures.
With --flight lines of the interpretive language, which is not taken, are told
once, on the first of them, with their count.
With --assume lines that stand by an assumption are told after these, as
  my.agc:12: assumed MM=DEC
A file with a fault that is of another kind is told in words after its faults:
a feed in place of the source, a source in place of a feed, and an image.
With --json each is an object of JSON, all on one line, as
  {\"kind\":\"error\",\"number\":\"E17\",\"file\":\"my.agc\",\"line\":2,\"column\":17,\"end\":20,
  \"said\":\"no line defines FIV\",\"cure\":\"did you mean FIVE?\",\"flight\":false,
  \"fix\":{\"line\":2,\"column\":17,\"end\":20,\"text\":\"FIVE\",\"sure\":true},
  \"related\":null}
with null for what it has not. Its kind is error or warning; its end is the
column after the last byte; its fix is the cure as an edit of the file, where
it is one, and sure where no other can be meant; related is the line that it
speaks of besides; and flight is true where --flight takes what stands there.
Of what is told of a file the kind is other, and of the last line total.

What is no fault, and likely a mistake, is told as a warning of the same form:
  W1  an operator's name in the first column, where it is a label
  W2  CA, CAE, CS, AD, MASK, MSK, CCS, MP, DV or SU of an octal number from 0
      to 60: that is a register or a counter, and not the number
  W3  DXCH, DAS, DCA or DCS of a label beside which ERASE stands alone: it
      reserves one word
  W4  an instruction after which the program runs on to a constant, or where no
      word stands
  W5  the fifth word after SETLOC to a vector, where the fourth goes on to it
  W6  a place of a switched erasable bank, reached while no line sets EB
  W7  a register's name as the label of another place
  W8  with --unused: a label that no operand names
  W9  a place of a switched bank of fixed memory, reached from bank 2 or 3 while
      no line sets FB

Exit status:
  0  there is no fault, warnings or none: agcws asm takes the source
  1  there is a fault; or the source or a feed is too long (E34)
  2  the command line is wrong
  3  a file, a device or memory failed
E34 and status 3 print one line to standard error, and what was told before
stays told. Of a file that cannot be read it is my.agc: error E6: and words,
else agcws: E2 or E7.";

/// What `agcws expect --help` tells after its arguments.
pub const EXPECT_HELP: &str = "Files:
  FILE  what is run, and tests that state what it must do, a line for each:
          SOURCE PATH   the source, beside FILE or below its folder
          FEED PATH     the timed inputs; without this line there are none
          STEPS N       how many steps are made
          STEPS N UNTIL IDLE   fewer where the program idles before, as with
                        run --until-idle
          TEST NAME     a test begins, of which the lines below are claims
        CHANNEL C WORD ..               these words are put out first on C
        CHANNEL C WITHIN N CYCLES WORD ..   and within N cycles
        CHANNEL C WORD .. THEN NOTHING  and no more
        CHANNEL C NOTHING               no word is put out on C
        AT END PLACE = WORD             after the last step
        ALWAYS PLACE = WORD             after each step
        NEVER PLACE = WORD              after none
        AT LABEL PLACE = WORD           each time that LABEL is executed next,
                                        which has to be so once at least
        CALLS LABEL N                   LABEL is executed so often
        CALLS LABEL WITHIN N CYCLES     and each call takes at most N cycles,
                                        until Z is what Q was at LABEL
        NOTES NONE                      run --notes tells nothing
        NOTES KIND ..                   nothing but of these kinds, as SKIP;
                                        of KIND AT LABEL only at LABEL
        CHECK                           check tells no error and no warning
        COVERED N                       N instructions or more are executed
        Besides = there are <> < > <= >=. A PLACE is erasable: a symbol, a
        register, a counter, or an octal number; +n after it, as after LABEL,
        is n words on, in octal. A WORD is octal, or decimal where D ends it,
        as -5D. # begins a comment. Lines may end with CR LF.
        FILE has at most 65536 bytes.

Output: a line for each test, as
  ok   the sum is right
  FAIL the key: line 7, step 119, cycle 220: it is 00013 (11); wanted 00012 (10)
with the line of FILE that fails first, the step, the cycles after it, the word
that was put out or stands in the place, or: nothing came; and what is wanted.
Of several files the lines of each stand below its name.
With --tap as TAP 14: ok or not ok, with a number, and what is wrong as message.
With --junit as XML, a testsuite for each file and a testcase for each test.

Exit status:
  0  all tests are met
  1  some are not; or the source or the feed is refused
  2  the command line is wrong, or FILE is refused
  3  a file, a device or memory failed
What is refused, and what cannot be read, is told in a line to standard error.";

/// What `agcws explain --help` tells after its arguments.
pub const EXPLAIN_HELP: &str =
    "Output: what the number means, and each mistake that draws it, with a source or
a feed where one is short, > before its line that is told, and the cure; of what
run --notes tells, by its kind, what it means, its causes and their cures, and
where the manual tells of it. Without a number a line for each, of refusals, of
warnings and then of notes. E40 to E52 are replies of sessions.

Exit status:
  0  done
  2  the command line is wrong, or nothing is called so
  3  a device or memory failed";
