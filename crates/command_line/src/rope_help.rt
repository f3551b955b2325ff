//! The help of the subcommands of rope images: files, output and exit status.

/// What `agcws upgrade --help` tells after its arguments.
pub const UPGRADE_HELP: &str = "Files:
  OLD  a rope image of version 1, 73728 bytes: banks 2, 3, 0, 1, 4 to 43
       (octal), each of 1024 words, each word as two bytes, high byte first,
       of twice the word. One with a parity bit set is refused.
  NEW  the image of the same words in version 2, where the lowest bit of every
       two bytes is a parity bit: they have an odd number of one bits.
       The file is made at the first write: a refused image leaves none. It is
       written beside its place, as NEW.part0, and put there whole: where that
       fails an old image stands as it was.
  NEW may not end in .agc or .feed, nor be the file OLD, by whatever path.

Exit status:
  0  done
  1  the old image is refused: it is short (E3) or long (E4), or the lowest
     bit of two of its bytes is 1 (E5)
  2  the command line is wrong
  3  a file, a device or memory failed
Status 1 and 3 print one line to standard error, as agcws: E5.";

/// What `agcws words --help` tells after its arguments.
pub const WORDS_HELP: &str = "Files:
  ROPE  a rope image, as agcws asm writes it, or a text of octal words, as
        --octal writes it; its first line tells it.
        With --parity ignore the lowest bit of each two bytes is passed over,
        whatever --rope says. With --form an image stands otherwise:
          hardware      a parity bit stands below the highest bit of each two
                        bytes, and not lowest
          swapped       the second of each two bytes stands first
          complemented  each bit is the other one
          numbered      banks 0 and 1 stand before banks 2 and 3
        or in several of these ways, named in this order with commas. In place
        of numbered module1 to module6 stand for a file of 12288 bytes: one
        module of six banks by their numbers, the other banks without a word.

Output: one line for each word of the bank, or of all banks in the order of
their numbers, as
  02,4001 64005 AD 4005
with the place as in a listing, the word in octal, and the instruction that the
word is. A word is read as an extracode where the words before it in its bank
put extracode in force: EXTEND does for the next word, and INDEX that is read as
an extracode keeps it. So a number that stands among the instructions may be
shown as an instruction, and the word after it as an extracode that it is not.
With --symbols a name stands for an address, as AD FIVE, or the nearest before
it and how far in octal, as TC WAITLIST +2, and A, L, Q, EB, FB, Z, BB for the
registers; where the place depends on EB, or in bank 2 or 3 on FB, the address
stays. FILE is a listing of agcws asm, whose lines below SYMBOLS are taken, or
has lines of a name and a place: 02,4013, 02,0013, E3,1400 or a number. Of two
names of one place the first is shown.
With --source a source that gives these words to agcws asm: for each bank a line
BANK, and for each of its words a line as
          OCT     64005   # 02,4001 AD 4005
and with --symbols too one with names and instructions, as
  NEXT     AD FIVE                   # 02,4001 64005
which is tried first: where asm gives other words of it, the one of OCT is
written. A name that is no label of the language stands in a comment.
With --octal the words alone, eight a line, and before those of each bank a line
as BANK=02. In such a text a semicolon begins a comment.
With --xref, as a comment of such a table, a row for the place of each name, and
below it one for each word of the bank, or of all, whose address leads there, as
# 02,4001 FIVE     READ
with what it does: READ, WRITE (TS), CHANGE, which reads and writes, or JUMP. An
address that depends on EB, or in bank 2 or 3 on FB, and a word 00000 count for
none; a number among the instructions may be taken for one.
With --flight --holes FILE is a source, as agcws asm --flight --holes takes it,
whose names are shown as those of its listing. The words of its interpretive
lines, which are no instructions and are not of the source, are shown as
  02,4003 77775 HOLE

Exit status:
  0  done
  1  the image is refused: it is short (E3) or long (E4), or the lowest bit of
     two of its bytes is wrong (E5); or a line of the table is (E36), or the
     source
  2  the command line is wrong
  3  a file, a device or memory failed
Status 1 and 3 print one line to standard error, as agcws: E5. With --where one
more tells of E5 the first two bytes that are wrong, as agcws: BYTE 2 02,4001:
the number of the first of them in the file, from 0 on, and the word's place.";

/// What `agcws compare --help` tells after its arguments.
pub const COMPARE_HELP: &str = "Files:
  OLD  a rope image, as agcws asm writes it.
  NEW  another.
       With --parity ignore the lowest bit of each two bytes is passed over,
       whatever --old and --new say; with --old-form and --new-form an image
       stands in a form of agcws words --help.
       With --only OLD is a source, as agcws asm takes it, and only the places
       that it fills are compared.

Output: one line for each place where the words differ, banks in the order of
their numbers, as
  02,4001 64005 64006 AD 4005, AD 4006
with the place as in a listing, the word in OLD and in NEW in octal, and the
instruction that each is, read as agcws words reads it. Then COUNT, and how many
places differ.
With --only --flight a word of a form of which it is not certain what yaYUL
makes of it (docs/DECISIONS.md) has a remark at the end of its line, as
UNCERTAIN 2CADR; and where OLD has such words more lines follow COUNT: how many
of them differ, and of each form how many places NEW confirms and denies, as
  UNCERTAIN 1 OF 8
  FORM 2CADR CONFIRMED 7 DENIED 1
With --banks a line follows for each bank in which OLD has words, as
  BANK 10 CERTAIN 812 EQUAL 812 UNCERTAIN 3 HOLES 211
with how many of its places are certain, how many of these NEW has too, how many
are uncertain, where any is, and how many are holes. With --holes lines of the
interpretive language are holes, as with agcws asm --holes, and are not
compared; else such lines are refused.
With --assume, as agcws asm takes it, the banks are told too, and of each F=W at
how many places NEW confirms it, and denies it, as
  ASSUMED MM=DEC CONFIRMED 3 DENIED 0

Exit status:
  0  the words are equal
  1  they differ; or an image is refused: it is short (E3) or long (E4), or the
     lowest bit of two of its bytes is wrong (E5); or the source is refused
  2  the command line is wrong
  3  a file, a device or memory failed
A refusal and status 3 print one line to standard error, and write no COUNT: of
an image, and of a file that cannot be read, new.rope: error E5: and words; else
as agcws: E14 LINE 9.";

/// What `agcws align --help` tells after its arguments.
pub const ALIGN_HELP: &str = "Files:
  OLD   a rope image, as agcws asm writes it.
  NEW   another.
        With --parity ignore the lowest bit of each two bytes is passed over,
        whatever --old and --new say; with --old-form and --new-form an image
        stands in a form of agcws words --help.
  FILE  names, as agcws words takes them.

Output: words of OLD and NEW are equal where they are once the addresses of
fixed memory in them, 2000 and up, are left out, and those of erasable memory in
OLD's renamed; or where both are check words: the last of their banks, after two
TC to themselves, with the banks' sums right. Addresses are renamed one to one,
those up to 60 never, those below 1400 in all words alike, those from there on,
of the switched bank, in the words of each bank of OLD.
The zeros that end a bank count for none. Equal runs of 12 words and more, each
in one bank, are paired, the longest first, of those as long as each other such
as stand at one place; then equal words at the ends of runs, and such as are
CADR of places that are paired; at last equal words at one place. No run can be
grown at its ends by equal words. In the order of NEW's places
  MOVED 10,2272 10,2275 WORDS 512   a run: where it stands in OLD and in NEW
  NEW 10,2272 WORDS 3               words of NEW that are in no run
  CHANGED 13,2113 13,2116 WORDS 1   and such as stand in place of as many of OLD
and of OLD's
  GONE 14,2221 WORDS 3              other words of OLD that are in no run
Then in the order of addresses, of which equal words in runs have others
  RENAMED 0100 0123 WORDS 12        the one in OLD, in NEW, and how many words
  RENAMED 1512 1600 BANK 10 WORDS 3 the same in the words of a bank of OLD alone
Then SAME WORDS, and how many words are in runs that stand where they stood, and
OTHER ADDRESSES, and how many words in runs are others all the same.
With --symbols in place of these lines one for each name, in a table that words
and others take, with its place in NEW; as a comment
  # UNSURE START FIXED 02,0003      fewer than four words of its run stand on
                                    one side of it, a changed word between two
                                    left out, and there is no bank's end; or it
                                    is the name of such a word
  # GONE START FIXED 02,0000        its word in OLD is in no run
  # UNSURE COUNT ERASABLE 0123      fewer than two equal words in runs have its
                                    address, or none that is sure in this way,
                                    or a word in no run has it; or it is in the
                                    switched bank, where addresses are renamed
Numbers, registers and counters stay as they are.

Exit status:
  0  done
  1  an image is refused: it is short (E3) or long (E4), or the lowest bit of
     two of its bytes is wrong (E5); or a line of the table is (E36)
  2  the command line is wrong
  3  a file, a device or memory failed
A refusal and status 3 print one line to standard error: of an image, and of a
file that cannot be read, new.rope: error E5: and words; else as agcws: E7.";

/// What `agcws find --help` tells after its arguments.
pub const FIND_HELP: &str = "Files:
  PASSAGE  a source, as agcws asm takes it. Where its words stand is of no
           matter, but for their banks.
  ROPE     a rope image, as agcws asm writes it.
           With --parity ignore the lowest bit of each two bytes is passed over,
           whatever --rope says; with --form the image stands in a form of agcws
           words --help.

Output: as agcws align pairs words, of PASSAGE as OLD and ROPE as NEW,
  FOUND 02,4000 10,2272 WORDS 40   a run: where it stands in PASSAGE and in ROPE
  MISSING 02,4050 WORDS 3          words of PASSAGE that are in no run

Exit status:
  0  done
  1  the source or the image is refused
  2  the command line is wrong
  3  a file, a device or memory failed
A refusal and status 3 print one line to standard error: of an image, and of a
file that cannot be read, my.rope: error E5: and words; else as agcws:
E14 LINE 9.";

/// What `agcws sums --help` tells after its arguments.
pub const SUMS_HELP: &str = "Files:
  ROPE  a rope image, as agcws asm writes it.
        With --parity ignore the lowest bit of each two bytes is passed over,
        whatever --rope says; with --form the image stands in a form of agcws
        words --help.

Output: one line for each bank in the order of their numbers, as
  02 00002
with the bank and the sum of its words in octal. It is the ones' complement sum
that a program makes which checks its own memory: AD, and where that overflows,
plus or minus one is added to what TS stores; by rising offsets, as another
order may end with 37777 more or less. In a flight rope the sum is the bank's
number, or its complement.
With --forms the line has two sums, and in which of them that is so, as
  02 00002 16010 written
the first of the words as the image is written, the second of those that the
same bytes are in the form of --form hardware; then in which forms that is so,
by their names for --form, as swapped,numbered, or written, or - where in none.
No sum tells complemented: it stands where over 32 words more are 77771 than
00006, EXTEND; or neither are, some bank is 77777 throughout and none 00000.

Exit status:
  0  done
  1  the image is refused: it is short (E3) or long (E4), or the lowest bit of
     two of its bytes is wrong (E5)
  2  the command line is wrong
  3  a file, a device or memory failed
Status 1 and 3 print one line to standard error, as agcws: E5.";

/// What `agcws parity --help` tells after its arguments.
pub const PARITY_HELP: &str = "Files:
  ROPE  a rope image of version 2, as agcws asm writes it: one of version 1 has
        no parity bits. With --form it stands in a form of agcws words --help.

Output: one line for each word whose two bytes have an even number of one bits,
banks in the order of their numbers, as
  02,4001 64005 BYTE 2
with the place as in a listing, the word in octal, and in decimal the number of
its first byte in the file, from 0 on. Then COUNT, and how many there are.

Exit status:
  0  all words have the right parity
  1  some have not; or the image is refused: it is short (E3) or long (E4)
  2  the command line is wrong
  3  a file, a device or memory failed
A refusal and status 3 print one line to standard error, as agcws: E3, and write
no COUNT.";

/// What `agcws damages --help` tells after its arguments.
pub const DAMAGES_HELP: &str = "Files:
  ROPE  a rope image of version 2, as agcws asm writes it, with check words: one
        of version 1 has no parity bits. With --form it stands in a form of
        agcws words --help.

Output: what is damaged in each bank in the order of their numbers, as the
parities and the sum of its words tell it together. A bank's sum is right where
it is the bank's number, or its complement:
  10,2137 00006 IS 00002 BY THE SUM
      the bank's one word of wrong parity, and what it is where one bit of it
      is wrong and the sum is to be right; 00006 where it is the parity bit
  10,2137 00006 IS 00006 OR 40006 BY THE SUM
      the same, where that leaves more than one
  10,2137 00006 HAS WRONG PARITY
      a word of wrong parity of which the sum does not tell more
  BANK 11 BIT 7 ALWAYS 0, WRONG IN 457 WORDS BY THE SUM
      the bit is the same in all words; the sum is right where it is the other
      one in the words of wrong parity. Without the sum this is told from 32
      such words on
  BANK 11 RIGHT BY THE SUM, 12 PARITY BITS WRONG
  BANK 05 EXCHANGED WITH BANK 06
      no parity is wrong, and each has the sum of the other
  BANK 05 HAS THE WORDS OF BANK 06
  BANK 05 HAS THE SUM OF BANK 06
      the same of one bank alone; 06 has another sum than its own too
  BANK 05 SUM 00024
      no parity is wrong, and the sum is, in none of these ways
  BANK 12 ADDRESS BIT 7 MAKES NO DIFFERENCE
      each word stands twice: where this bit of its offset is 0, and 1
  BANK 12 ADDRESS BIT 7 ALWAYS 1
      the same, and the words are those where it is 1: two TC to themselves one
      after another, as check words begin, are so there
  BANK 07 ALL 77777
  BANKS 22 TO 27 ALL 77777
      all words are one, of a bank or a module; an empty bank is not told of
  BYTES EXCHANGED
  BITS IN THE ORDER OF THE HARDWARE, or both
      more banks have their sums so than as agcws asm writes images; then
      nothing else is told but the next two, which may stand alone too
  ALL BITS COMPLEMENTED
      over 32 words more are 77771 than 00006, EXTEND; or neither are, all words
      of some bank are 77777, and of none 00000
  BANKS BY THEIR NUMBERS
      banks 0 to 3 have the sums of 2, 3, 0 and 1
  PARITY THE OTHER WAY ROUND
      most words have a wrong parity, banks of one word alone left out; then the
      other one is taken for right
Then COUNT, and of how many banks it tells; the parity of the image counts as
one more. An image that stands in several ways has a line for each, and those
are counted. Nothing is repaired.
With --source the words as lines of BANK and OCT in place of this, with the
place of each in its comment. Where one bit alone can be wrong in a bank's words
of wrong parity, they are written without it:
          OCT     00002   # 10,2137 WAS 00006
Other words of wrong parity stand as they are, and WRONG PARITY behind them.

Exit status:
  0  no damage is told
  1  some are; or the image is refused: it is short (E3) or long (E4)
  2  the command line is wrong
  3  a file, a device or memory failed
A refusal and status 3 print one line to standard error, as agcws: E3, and write
no COUNT.";
