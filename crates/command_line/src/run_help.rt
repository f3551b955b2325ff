//! The help of the subcommands of runs: files, output and exit status.

/// What `agcws run --help` tells after its arguments.
pub const RUN_HELP: &str = "Files:
  SRC   a source in the assembler's language, at most 65536 lines of at most
        120 bytes. A label begins at the first byte of its line; operator,
        operand and offset follow, and # begins a comment.
        With --flight it may have forms of flight programs: see the manual;
        and at most 262144 lines, whose comments may be of any length.
        With --image it is a rope image, as agcws asm writes it; and with
        --parity and --form it is taken as agcws words takes it.
  FEED  the timed inputs of the run, at most 65536, one a line, whose cycles
        do not fall; blank lines and comments after # are passed over:
          CYCLE CHAN CHANNEL WORD     a word on an input channel, in octal
          CYCLE RUPT K                interrupt K is asked for, 1 to 10
          CYCLE COUNTER SEQUENCE      a pulse, as 100 TIME3 PINC
        each counter with its sequences:
          TIME1 TIME2 TIME3 TIME4 TIME5     PINC
          TIME6                             DINC
          CDUX CDUY CDUZ OPTY OPTX          PCDU MCDU
          PIPAX PIPAY PIPAZ                 PINC MINC
          INLINK                            SHINC SHANC
        and at most 16 series, each one input COUNT times:
          EVERY FIRST NUM DEN COUNT, and an input without its CYCLE
        Input I of it, from 0 on, comes at FIRST + (I * NUM) / DEN, rounded
        down: EVERY 0 2560 3 600 TIME3 PINC is a pulse each 10 ms for 6 s.
        CYCLE, K and the numbers of a series are decimal.
  A source and a feed are ASCII text of at most 8388608 bytes.

Output: one line for each word written to a channel but 1, 2 and 7, as
  7 CH 010 00012
with the cycles in decimal, and the channel and the word in octal.
With --until-idle the run ends after a step where all is, but for the cycles,
as after the last step before whose number is a power of two, no input is to
come since then and nothing was put out: the same loop goes on for ever.
With --flight --holes lines of the interpretive language are holes, as with
agcws asm --holes. The run stops before a step that would execute the word of a
hole, or enter an interrupt that keeps it: with status 1, and a line to standard
error of the step, and the hole's row in the listing, as
  agcws: HOLE AT STEP 4:     5 02,4003 00000   OCT 0 #  VLOAD UNIT
With --end, when all steps are made, also one line to standard error, as
  END STEPS 4 CYCLES 7 OUTPUTS 1 Z 4004
with the lines written as OUTPUTS, and in octal Z, where the program stands.
With --progress, after each 1048576 steps one line to standard error, as
  agcws: STEPS 1048576
With --notes, when all steps are made and before the line of --end, lines to
standard error of what has happened that is seldom meant, each kind at each
place in one, with its first step, the cycles after it, and how often, as
  NOTE QUOTIENT   02,4004  10100  DV D               STEP 5 CYCLES 13 TIMES 1
    QUOTIENT   DV whose quotient does not fit
    SKIP       TS that skips, since A overflows
    NOWORD     a word is executed in fixed memory where none stands
    ERASABLE   a word is executed in erasable memory, but at Q, and but TC to
               fixed memory, as at a kept Q
    NOHANDLER  an interrupt is entered where no word stands
    OTHERBANK  another bank is reached than that of the erasable place that the
               instruction's source names
    FIXEDBANK  the same, of a place of a switched bank of fixed memory
    NOTKEPT    RESUME goes back while A, L, Q, EB, FB or the superbank is not as
               the interrupt has found it
    MINUSZERO  CCS of -0 goes another way than +0 would
    OVERWRITTEN  a word comes on channel 15 or 16 before the one before it there
               was read
    SHARED     an interrupt is entered where the program itself has come by, or
               the program comes by where one was entered, or to RESUME of none
  and NOTE INSIDE STEP 20 where the run ends within an interrupt, and
  NOTE WAITING T3RUPT STEP 7 CYCLES 5 where one is asked for since that step,
  and is not entered, for 853 cycles or more, and
  NOTE UNREAD CHAN 013 CYCLES 20 where a word came on a channel after these
  cycles, and no instruction reads it, for 853 cycles or more
With --json each is an object of JSON: its kind,
place, symbol, word, text, step, cycles and count, as
  {\"kind\":\"SKIP\",\"place\":\"02,4005\",\"symbol\":null,\"word\":\"54101\",\"text\":\"TS SUM\",
  \"step\":10126,\"cycles\":19240,\"count\":1}
all on one line; of INSIDE kind and step, of WAITING kind, interrupt, step
and cycles, and of UNREAD kind, channel and cycles. A symbol is the first that
stands for the place.

Exit status:
  0  done
  1  the source, the image or the feed is refused, or the run stops at a hole
  2  the command line is wrong
  3  a file, a device or memory failed
Status 1 and 3 print one line to standard error, as agcws: E14 LINE 9. What the
number means: agcws explain E14. All faults, and whether a file is of another
kind, as an image where --image is missing: agcws check SRC FEED.";

/// What `agcws trace --help` tells after its arguments.
pub const TRACE_HELP: &str = "Files:
  SRC   a source, as agcws run takes it, or with --image a rope image, which
        has symbols by --symbols alone: a table, as agcws words takes it
  FEED  the timed inputs, as agcws run takes them

Output: one line for each of the N steps, or with --from and --to for those
from one to another, as
  2         4         02,4001  64005  AD FIVE             A=000012
Two blanks or more stand between two fields:
  the step, from 1 on, and the cycles after it, in decimal
  the place of the word, as in a listing; BRUPT where RESUME brought the word;
      of an interrupt that is entered, the place where it leads; of an input -
  the word that is executed; ENTRY of an interrupt; INPUT of an input
  the instruction, with the symbol of the place that it names, and what INDEX
      has added, as +3; the interrupt's name; the input as in a feed, and after
      ASKS the interrupt for which it asks
  what the step has written, each as PLACE=WORD with a blank between two, or -:
      registers by their letters, other places by symbol, or as in a listing,
      channels as CH010; A and Q in 16 bits. Z is not shown
  what agcws run writes in this step, if anything
With --reads one more field stands before what the step has written: READS, and
each place that it has read, with the word that stood there before it, or -. It
is what an instruction works on or INDEX adds, places of fixed memory too; ZRUPT
and BRUPT of RESUME; the word that an interrupt puts off; a counter; and a word
that is executed in erasable memory. Z is not shown.
With --say a sentence of what the step did stands in place of the cycles and of
what it has written, as
  A, 00005 (5), and FIVE, 00005 (5), are added: A is 00012 (10).
Words are in octal, and decimal in brackets behind that; those with an overflow
have 16 bits.
With --progress, after each 1048576 steps one line to standard error, as
  agcws: STEPS 1048576

Exit status:
  0  done
  1  the source, or the image, or the feed, or the table is refused
  2  the command line is wrong
  3  a file, a device or memory failed
Status 1 and 3 print one line to standard error, as agcws: E14 LINE 9. What the
number means: agcws explain E14. All faults, and whether a file is of another
kind, as an image where --image is missing: agcws check SRC FEED.";

/// What `agcws cover --help` tells after its arguments.
pub const COVER_HELP: &str = "Files:
  SRC   a source, as agcws run takes it, or with --image a rope image, for
        which --symbols is a table of names, as agcws words takes it
  FEED  the timed inputs, as agcws run takes them

Output: the rows of the listing, or with --image the lines of agcws words, each
after two columns, right in 10 places with a blank after each: how often its
word was executed in N steps, and the cycles that this took, as
         2          4    25 02,4104 54100  LOOP    TS      COUNT
A word that was never executed has - in both, a row without a word blanks. Below
stand, with the same columns, one in each row:
  the erasable places that were executed, and then the places of fixed memory
      where no word stands; those that were not executed have no row
  INPUT  the inputs that were taken
  ENTRY  the interrupts that were entered
  BRUPT  the words that RESUME brought
  TOTAL  all steps, and all cycles
Each step is counted once, so that the figures add up to those of TOTAL.
With --json each row is an object of JSON, all on one line, as
  {\"kind\":\"line\",\"line\":25,\"place\":\"02,4104\",\"word\":\"54100\",\"symbol\":\"LOOP\",
  \"count\":2,\"cycles\":4,\"text\":\"LOOP    TS      COUNT\"}
with null for what it has not; of an image kind is word, and text the word's
instruction; of what stands below it is place, INPUT, ENTRY, BRUPT or TOTAL.
With --progress, after each 1048576 steps one line to standard error, as
  agcws: STEPS 1048576

Exit status:
  0  done
  1  the source, or the image, or the feed, or the table is refused
  2  the command line is wrong
  3  a file, a device or memory failed
Status 1 and 3 print one line to standard error, as agcws: E14 LINE 9. What the
number means: agcws explain E14. All faults, and whether a file is of another
kind, as an image where --image is missing: agcws check SRC FEED.";

/// What `agcws reach --help` tells after its arguments.
pub const REACH_HELP: &str = "Files:
  SRC  a source, as agcws run takes it, or with --image a rope image, for which
       --symbols is a table of names, as agcws words takes it

Output: the rows of the listing, or with --image the lines of agcws words, each
after a column, as
  START    25 02,4104 54100  LOOP    TS      COUNT
  START  a way leads to the word from 4000, where a run starts, or from the
         entry of an interrupt, 4000 + 4 K
  DATA   no way, but an instruction to which one leads reads the word
  NAMED  a way leads to it only from a place that the source names by ADRES,
         CADR, 2CADR, their complements, GENADR or REMADR; an image names none
  -      none of these
A row without a word has blanks. A way goes from an instruction to those that
may follow it, as far as its word tells: to the next word; of CCS to the next
four and of TS to the next two; to the target of TC, TCF, BZF and BZMF; after TC
to the next word too, where a routine returns. No way leads on from RESUME, from
RETURN and TS Z, to a target under INDEX, or from bank 2 or 3 to an address from
2000 to 3777, of which FB decides.
With --feed and --steps the words that N steps of a run execute are roots too:
  RUN    a way leads to the word from what the run executes, and from no vector
and a second column has IDLE where a way leads to a word that the run has not
executed. So - is then a constant, or what nothing that is known leads to.
What an instruction reads that only a named place leads to has DATA too.
With --roots a last column has the first root from which a way leads to the
word, as NAMED 07,2006: the place 02,4000, the entry of an interrupt, or a place
that an address names, by the order of the lines; of the words of a run none.

Exit status:
  0  done
  1  the source, or the image, or the feed, or the table is refused
  2  the command line is wrong
  3  a file, a device or memory failed
Status 1 and 3 print one line to standard error, as agcws: E14 LINE 9. What the
number means: agcws explain E14.";

/// What `agcws bound --help` tells after its arguments.
pub const BOUND_HELP: &str = "Files:
  SRC  a source, as agcws run takes it, or with --image a rope image, for which
       --symbols is a table of names, as agcws words takes it

Output: where all ways through the routine end,
  AT MOST 58 CYCLES
from its first word to TC Q, or to TC of a cell of --kept, and the TC that is
there, all counted, over all ways on which no place of --loops is come to more
often than is stated there. Each routine that is called on the way is counted
from TC to its return, and in each of its calls comes to these places as often
at most. Then a line for each loop whose rounds its words tell:
  02,4002 COUNTED BY CCS 0100 FROM 10
Such a loop runs from TS of a cell to TCF of this TS. Before TS stands CA of a
constant of fixed memory, not below 0; before TCF stands CCS of the cell. In the
routine nothing else leads to TS or to TCF, nor into the loop. In it no other
word may write the cell (a write under INDEX may), and none calls. The cell is
none below 61, which counters and the machine write; where EB switches it, no
word of the loop may write EB. The loop comes to TS once more than its constant
each time that it is entered. Handlers of interrupts are not looked at. A place
of --loops goes before it. Else the place where no bound was found, and why:
  NO BOUND: 02,4002 IS IN A LOOP WITHOUT A BOUND
  JUMPS UNDER INDEX              where the jump goes no word tells
  LEADS TO NO KNOWN WORD         to erasable memory, or to a bank of FB
  WRITES Z OR ITS OWN BANK       or its caller's: what is next no word tells
  RESUMES
  RETURNS BY Q, WHICH WAS CHANGED
  CALLS A ROUTINE IN PROGRESS    which would not end
  IS IN A LOOP WITHOUT A BOUND   not counted so, and without --loops
  HAS MORE THAN 8192 WORDS       each counted for each way to come to it
  USES 2048 ROUTINES OR MORE     those that they call among them
  HAS TOO MANY CYCLES TO COUNT   2^32, or no numbers that hold were found
--loops has pairs of a place and a number, as 'LOOP 11 INNER 121': of all ways
through the routine, so that of an inner loop the rounds of all rounds of the
outer one count. A place where CCS begins a round is come to once more than it
goes back. Of loops in loops the inner has the greater number. The bound is
exact where each place is come to once in each round of its loop, and else may
be greater than the longest way.
Q holds the way back at the first word of a routine, until an instruction writes
Q or a routine is called. --kept states of a cell that it holds the way back at
TC of it, and at QXCH of it while Q does not: then Q holds it again. Nothing is
looked for that might write the cell. --kept 2 states it of Q itself, as where
TS stands before the EXTEND of QXCH: it is taken to skip, whatever A holds.
Interrupts and inputs of counters, which take cycles too, are left out. INDEX is
taken to turn no instruction into another, and none into one that writes Z or Q.

Exit status:
  0  the bound is told
  1  the source, or the image, or the table is refused; or no bound was found
  2  the command line is wrong; or ROUTINE, or a place or cell, is none
  3  a file, a device or memory failed
Status 1 and 3 print one line to standard error, as agcws: E14 LINE 9, unless no
bound was found. What the number means: agcws explain E14.";

/// What `agcws access --help` tells after its arguments.
pub const ACCESS_HELP: &str = "Files:
  SRC   a source, as agcws run takes it, or with --image a rope image, for
        which --symbols is a table of names, as agcws words takes it
  FEED  the timed inputs, as agcws run takes them

Output: for each cell that N steps have read or written a row for each level
that has, as
       318        159 MAIN       TMP
how often it was read, and how often it was written, right in 10 places with a
blank after each; the level, and the cell, as agcws trace --reads shows it, but
without a name of its own by the nearest before it, as VEL +1:
  MAIN       the program outside of interrupts, where they may come
  INHIBITED  the program outside of interrupts, while they are inhibited
  T6RUPT ..  the interrupt that is served, its entry too
  INPUT      an input of the feed
A cell is an erasable place, a register or a channel. Below its rows stands
  SHARED TMP WRITTEN BY MAIN T5RUPT
where MAIN and an interrupt use it, and one of them writes it: an interrupt may
come between two instructions of MAIN; with all levels that write it. A pair of
words is two cells: that two instructions of MAIN use both is not told. And
  UNREAD LAMP
where an erasable place is written, and never read in N steps. Registers are not
told as shared or unread.
With PLACE there is a row for each place that has read or written this one cell,
as
         0        159 MAIN       02,4201 54100 TS TMP
with its word, as agcws words shows it; ENTRY, INPUT, and BRUPT for a word that
RESUME brought. PLACE is a symbol of an erasable place, also as 'VEL +1', a
cell as E3,1401, Q or CH11, or the octal number of an erasable place, as 104.
All counts add up to the reads and writes of the cells in N steps: Z is written
by each instruction.
With --progress, after each 1048576 steps one line to standard error, as
  agcws: STEPS 1048576

Exit status:
  0  done
  1  the source, or the image, or the feed, or the table is refused
  2  the command line is wrong; or no cell is shown as PLACE
  3  a file, a device or memory failed
Status 1 and 3 print one line to standard error, as agcws: E14 LINE 9. What the
number means: agcws explain E14. All faults, and whether a file is of another
kind, as an image where --image is missing: agcws check SRC FEED.";

/// What `agcws delays --help` tells after its arguments.
pub const DELAYS_HELP: &str = "Files:
  SRC   a source, as agcws run takes it, or with --image a rope image, for
        which --symbols is a table of names, as agcws words takes it
  FEED  the timed inputs, as agcws run takes them

Output: how long interrupts waited in N steps, for how long none could come, and
how long calls of routines took. All figures are of this feed: with another one
an interrupt may wait longer.
First stands how many cycles were put down to each cause, as
  SPENT    21573 T5RUPT
  MAIN       the program outside of interrupts, where one may come
  INHIBITED  the program outside of interrupts, while they are inhibited
  T6RUPT ..  the interrupt that is served, its entry too
  INPUT      an input of the feed
  EXTEND     MAIN, but extracode is in force; INDEX: a sum waits for the next
             word; RESUME: a word waits that it brought; OVERFLOW: A overflows
They add up to all cycles. Then come rows as
      GREATEST     MEAN    LEAST    COUNT     STEP
  WAIT      43        7        0      127    16380 T5RUPT
the cycles of the longest stretch, their mean, rounded down, those of the least,
how many there were, and the step that ended the longest, each in 8 places.
  WAIT  of an interrupt: from the end of the step that asks for it to the step
        that enters it
  SPAN  of a place: while interrupts are inhibited or one is served, with the
        step that begins this, as INHINT or an entry, which stands at the place,
        and the one that ends it, as RELINT or RESUME: TO is its place. START is
        that of the start of the run. BRUPT is a word that RESUME brought
  CALL  of a routine, by its place and name: from TC that enters it, while no
        interrupt is served, to the first step after which Z leads to the word
        after TC and none is, as over and out of a session take it. Interrupts
        that come meanwhile count. What has not returned does not
  OPEN  before these: a WAIT or SPAN that has not ended after N steps, with the
        cycles since, and the step that asked or began
Below a row stands as
  OF      40 KEYRUPT1
how many cycles of the longest were of each cause. These add up to it.
With --progress, after each 1048576 steps one line to standard error, as
  agcws: STEPS 1048576

Exit status:
  0  done
  1  the source, or the image, or the feed, or the table is refused
  2  the command line is wrong
  3  a file, a device or memory failed
Status 1 and 3 print one line to standard error, as agcws: E14 LINE 9. What the
number means: agcws explain E14. All faults, and whether a file is of another
kind, as an image where --image is missing: agcws check SRC FEED.";

/// What `agcws whatif --help` tells after its arguments.
pub const WHATIF_HELP: &str = "Files:
  SRC     a source, as agcws run takes it, or with --image a rope image
  FEED    the timed inputs, as agcws run takes them
  TRIALS  inputs, one a line, with their cycles, as in a feed; no EVERY

Each input of TRIALS is tried alone: it is added to those of FEED, and comes
after all others of its cycle. Each run has N steps.

Output: what the run puts out without a trial, as
  WITHOUT WORDS 13
and then what it puts out with each. Trials one after another that come to the
same are told in one line: the cycles of the first and of the last of them, and
how many they are; how many of the words are those of the run without, before
the first other one, and how many words follow, each of them in a line:
  FROM 850 TO 882 COUNT 33 ALIKE 13 OTHERS 0
  FROM 883 TO 883 COUNT 1 ALIKE 11 OTHERS 1
  CH 011 00004
The cycles at which words come do not count. ERASABLE at the end of a line: an
instruction was executed in erasable memory, as of a program that is lost.
NEVER: the run ends at the cycles of these trials or before, so none comes.
After each of them, where the run stands at its end, of the first of these
trials; and the first word of erasable memory from 61 on that differs from that
of the run without:
  END 02,4016 CELL E0,0064 00003 NOT 00002

With --notes, in place of all that, the kinds and places of which agcws run
--notes would tell at a step: those of the run without a trial, and after each
line of trials those that come with them, and those that go:
  NOTE SKIP 02,4006
  FROM 26 TO 27 COUNT 2
  MORE NOTKEPT 02,4016
  LESS SKIP 02,4006

The steps up to the cycle of a trial are not made again for it.

Exit status:
  0  done
  1  the source, or the image, or the feed, or the table, or TRIALS is refused
  2  the command line is wrong; or a line of TRIALS begins with EVERY
  3  a file, a device or memory failed
Status 1 and 3 print one line to standard error, as agcws: E14 LINE 9; of TRIALS
with its name. What the number means: agcws explain E14.";

/// What `agcws differ --help` tells after its arguments.
pub const DIFFER_HELP: &str = "Files:
  SRC SRC2    sources, as agcws run takes them, or with --image rope images, for
              which --symbols is a table of names, as agcws words takes it
  FEED FEED2  the timed inputs of each, as agcws run takes them
The options hold for both.

Output: where the two runs of N steps part. Three times a line, and below it one
line of the first run and one of the other, as agcws trace has them:
  FIRST OUTPUT 1
  47    87    02,4115  01012  WRITE 012  CH012=00075  87 CH 012 00075
  42    77    02,4115  01012  WRITE 012  CH012=00062  77 CH 012 00062
The first word put out, counted from 1, that is not the same, or on another
channel; cycles do not count. NONE in place of a line: that run puts out no
more. Then
  FIRST STATE A 177715 WITH 177765
the first step after which a cell is not the same, an erasable place, a register
or a channel, with what is read there in the one run and in the other; of some
cells the first: registers, erasable places, channels. Then
  FIRST STEP
the first step outside of interrupts that is not the same: another instruction,
another place, or another word written. Inputs, and the steps of interrupts from
entry to RESUME, are left out; a word that RESUME brought, BRUPT, counts for its
place; Z that is written is told by the next step. A round of waiting that one
run has alone is passed over: 1 to 4 steps that are those just before them.
Where one run has no more steps outside of interrupts, they do not differ.
What never differs is told in words, as
  NO OUTPUT DIFFERS IN 200 STEPS
The sources may differ: what is compared is words, and places by their numbers.

With --why K each of the three is followed by how it came about, as
  WHY SUM
  22  41  BRUPT    54101  TS SUM       READS A=000001  SUM=00001
  17  31  02,4110  54101  TS SUM       READS A=177765  SUM=77765
  WHY A
  20  37  02,4015  26102  ADS TICKS    READS A=000001 TICKS=00000  ..
  16  29  02,4107  64125  AD TABLE +3  READS A=177715 02,4125=00050  ..
  PART AT 20 WITH 16
First it is the cell that the line tells, of FIRST OUTPUT the first that the two
steps wrote and that is not the same then; of FIRST STEP too, or Z, the branch,
where they stand at two places. Below it stand the last steps that wrote it, as
agcws trace --reads has them; or NONE. Then the same of the first cell that they
read for it and that was not the same, other than Z. PART: they are not the same
step, as told without place and word; or all that they read was the same. MORE:
it goes on after K.

Each of the three makes each run once, up to where they part, and once more for
its line; each WHY makes both three times. Memory does not grow with N.

Exit status:
  0  done, whether they differ or not
  1  a source, an image, a feed or the table is refused
  2  the command line is wrong
  3  a file, a device or memory failed
Status 1 and 3 print one line to standard error, as agcws: E14 LINE 9; of SRC2
or FEED2 with its name. What the number means: agcws explain E14. All faults of
a file: agcws check SRC FEED, and agcws check SRC2 FEED2.";

/// What `agcws debug --help` tells after its arguments.
pub const DEBUG_HELP: &str = "Files:
  SRC   a source, as agcws run takes it, or with --image a rope image, which
        has symbols by --symbols alone: a table, as agcws words takes it
  FEED  the timed inputs, as agcws run takes them

Input: commands, one a line of at most 80 bytes; # begins a comment. The run
has N steps so far, and the position P is one of 0 to N: every step up to N can
be shown again. K and T are decimal; words and channels are octal. A PLACE is
an octal number, a symbol, or BANK,OFFSET in octal.

Output: the replies to a line, before the next line is waited for.
  step K               to P + K, new steps made where needed: the AT line
  run K                from step N on, up to K new steps, until a breakpoint
                       holds: HIT I then, and the AT line
  back K               to P - K, or 0: the AT line
  goto T               to step T: the AT line, or E41 NOT YET
  seek                 back to the last step before P at which a breakpoint
                       holds: HIT I and the AT line, or NONE
  break at PLACE       one breakpoint more, where Z leads to PLACE:
                       BREAK I, or E52 FULL from the 17th on
  break word PLACE W   where an erasable word is W
  break chan C W       where a channel is W
  clear                no breakpoints: CLEAR
  regs                 the registers and flags, and NEXT, the next instruction
  mem PLACE            MEM and the word there
  chan C               CHAN and the word there
  last PLACE           LAST T, the last step up to P that changed the erasable
                       word to what it is at P, or NONE
  sym NAME             SYM and the symbol's value, or E17 UNDEFINED
  changed T            the erasable places that differ after T and N steps, one
                       a line, and COUNT; or E41 NOT YET
  tail                 the last 32 channel lines of the N steps, and TAIL
  add CYCLE ..         one input more, a line of FEED but no EVERY: ADDED, or
                       E33 COUNTER, E42 TOO EARLY, E32 TOO MANY, E2 MEMORY
  quit                 the end, as is the end of the input (Ctrl-D)
The AT line is AT, the position, the cycles and Z in octal. The channel lines of
new steps come before a command's other lines. A blank line and a comment draw
no reply, any other line E50 COMMAND, or E51 LONG above 80 bytes. E40 LIMIT ends
a command at the last step, 1099511627774; E2 MEMORY leaves all as it was.

With --extended there are these besides, and after E50 COMMAND stands why:
  on, on K             from P on, over steps that stand and then new ones, to
                       the next at which a breakpoint holds, at most K: AT line
  until CYCLES         to the first step with so many cycles, back or on
  over, over K         to after the routine that TC at Z enters, within K steps;
                       else one step on: TOOK, its cycles, where it gets there,
                       and the AT line
  out, out K           to where the routine or the interrupt in progress returns
                       to: as over, or NONE
  inputs               the inputs that were added, as lines of a feed
  regs all             all registers and flags, a line each; ASKED, the
                       interrupts asked for; SUM and WORD, what waits; CYCLES
  why PLACE, .. K      the steps that made the word there, the last first, at
                       most K or 16: BY T, the step, what it wrote, FROM, what
                       it read; then ALL, MORE how many cells, or START
  why                  the same of the step that led to P, whatever it wrote
  why .. index places  and INDEX, what moved its operand; WHERE, its place
  why PLACE .. since T by steps from T on alone, and then MORE how many BEFORE T
  why step             WAY, the last choice before P and what it was made by;
  why PLACE control    the same of the step that wrote there last
  never PLACE          CAME, the last step that executed the word there, then
                       WAY, the last choice since that led away from there;
                       or else what INTERRUPT leads there; or ON THE WAY
  trace K              a line for each of the last K steps up to P, as agcws
                       trace has it
  say K                the same in sentences, as agcws trace --say has it
  tail steps, K steps  the last 32 channel lines, or K, each after STEP T
  quiet on, quiet off  WORDS N, how many, in place of the channel lines of new
                       steps, where there are some; or the lines: QUIET on
  break chan C W MASK  where a channel has the bits of W where MASK has ones
  break exec PLACE     where the step executed the instruction at PLACE, as an
                       input and an interrupt do not, nor a word that waited
  break change PLACE   where the step changed the word at PLACE, or on a channel
  where                WHERE, the next instruction's place as a listing has it,
                       and the symbol at it or before it, or WHERE BRUPT, the
                       word that waits; its row, as list has it; and in an
                       interrupt IN INTERRUPT K BY T, the step that entered it
  calls                CALL T, its place, TO, the routine, for each call in
                       progress, the innermost first, and in an interrupt IN
                       INTERRUPT K BY T between its own and the others; COUNT
  list PLACE, .. K     16 rows of the listing from there on, or K, as LIST; of a
                       place on no line, as of an image, the word and the
                       instruction that it is, with names
  value PLACE, .. K    the word there, or K from there on, each as VALUE, its
                       place, the word in octal, decimal, fraction and binary
  mem PLACE K          K words from there on, each as MEM, its place, the word
  chans                CHAN C W for each channel whose word is not zero; COUNT
  differs T            what is another word at P than at step T: registers as
                       regs all has them, MEM, CHAN; COUNT
  survey T U B         steps T to U in at most B buckets, to 4096: BUCKET, its
                       last step, the cycles after it, how many ENTRIES of
                       interrupts, INPUTS taken and OUTPUTS; COUNT
  survey .. PLACE ..   and for each place, at most 8, the least, the greatest
                       and the last word there
  whatif INPUT, .. K   K steps from P on, or 1000, without an input, as in FEED,
                       and with it, that came at P: as agcws whatif has them,
                       of the other words the first. Nothing changes
  .. K from A to B     the same at each of the steps A to B, up to K after B
  whatif RESTART, ..   the same of a restart; of one alone all other words
  whatif notes ..      with INPUT: which notes come and go, as by agcws whatif
                       --notes, those of the steps from the first trial on;
  .. notes since T ..  those from step T on, as if none came before
  find TEXT            the symbols whose names begin so, as FIND; COUNT
  breaks               the breakpoints, one a line, as BREAK I at PLACE; COUNT
  clear I              breakpoint I is taken away: CLEAR I, or NONE
  echo TEXT            TEXT, as it stands, so that a reply's end can be told
  help, help COMMAND   what each command takes and does, or one, as HELP lines
A PLACE is then also as a listing has it, E3,1400 or 02,4013; where no symbol
has the name, A, L, Q, Z, EB, FB, BB or a counter, as TIME3; and any of them
moved on, as SUM +3.
The AT line has the place where Z leads, as a listing has it, in place of Z.

Exit status:
  0  done
  1  the source, or the image, or the feed, or the table is refused
  2  the command line is wrong
  3  a file, a device or memory failed
Status 1 and 3 print one line to standard error, as agcws: E14 LINE 9. What the
number means: agcws explain E14. All faults, and whether a file is of another
kind, as an image where --image is missing: agcws check SRC FEED.";
