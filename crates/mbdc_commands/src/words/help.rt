//! What `mbdc --help` prints, and what `mbdc COMMAND --help` prints after the words: an example,
//! columns, lines and faults.

/// The version, and the logic in which the program is proved: `rt version` names it too.
pub const VERSION: &str = "0.3.0, logic dac8208d650f15bf";

/// Of the program. Each command has the first line of its own help here; packaging/words.py
/// compares them.
pub const PROGRAM: &str = "Data concentrator of wired M-Bus submeters

Usage: mbdc [OPTIONS] [COMMAND]

Read the house:
  poll     Reads the registered meters, all connected lines at once
  run      Does the lines of a script on an image, and prints the answers
  scan     Searches one bus for meters, without an image
  read     Reads one meter on one bus and prints its telegrams, without an image

Look:
  decode   Prints what each M-Bus frame says: link fields, meter, records, end
  fold     Applies telegrams and commands to an empty register, and prints it
  report   Prints an image's register, or its due-date values for a date
  values   Prints what each meter stands at, and changes nothing
  status   Prints when each meter was last heard, and how full the image is
  inspect  Prints what an image holds, and changes nothing

Bill:
  audit    Checks published numbers against the telegrams they come from

Maintain:
  format   Makes an image that holds an empty register
  fit      Adds the meters of a list to an image's register, all of them or none
  swap     Replaces a registered meter by another at the same place
  move     Gives a registered meter another flat
  out      Removes a meter from an image's register
  copy     Copies an image as it is at one instant, also while mbdc writes it
  rescue   Writes what an image reads as, or what is left of it, to a new image
  address  Gives one meter on one bus another primary address
  demo     Reads a simulated meter in this process, and reports its value

Options:
      --verbose  Prints a second line that says why a command failed
  -h, --help     Print help
  -V, --version  Print version

Without a command mbdc decodes standard input.
mbdc COMMAND --help prints the words of a command, with an example.
Status: 0 done, 1 a line of the input was at fault or a meter wasn't read,
  2 the words, 3 the image or its disk, 4 a file, a link or memory.
With 2, 3 and 4 one line on standard error says what happened.";

/// Of `decode`.
pub const DECODE: &str = "Example:
  echo 10 40 05 45 16 | mbdc decode --explain

Each line of the input is bytes in hex digits, with spaces anywhere. Printed of
each frame:
  ACK | SHORT C A | LONG C A CI length
  METER ident access status
  RECORD storage tariff subunit function vib data = value unit
  END, LAST bytes or MORE bytes
Faults: FRAME FAULT 1 Empty, 2 Start, 3 Truncated, 4 Lengths, 5 Trailing,
  6 Stop, 7 Checksum; BODY FAULT 1 Short, 2 BadIdentity, 3 Encrypted,
  4 ReservedDif, 5 TooManyDife, 6 TooManyVife, 7 BadLength,
  8 PlainTextExtension, 9 Cut; HEX FAULT";

/// Of `fold`.
pub const FOLD: &str = "Example:
  echo 1 FIT 12345678.PAD.01.07 1 S A1 > lines.txt && mbdc fold lines.txt

Lines of the input:
  TELEGRAM part moment hex
  n FIT ident line addr flat | n MOVE ident flat | n OUT ident |
  n CONFIRM serial | n SWAP old new addr
Printed: OK, ORDER last, REFUSED fault or SYNTAX for each; then METER ident line
  addr flat open for each meter, READINGS count and SIZE bytes
Faults: 1 Unknown, 2 Known, 3 AddressTaken, 4 Beyond, 5 Full";

/// Of `audit`.
pub const AUDIT: &str = "Examples:
  mbdc audit example.audit
  mbdc audit --sheet 2026-10.html 2026-10.audit

Lines of the file: what is declared of a house and its spans; then each place
  with its meters, the telegrams and other values that decide a span, its parts
  and its numbers; then the sums, and what is computed from them. docs/COMMANDS
  has the fields. FILE may be - for standard input.
Printed: AS line n, with a device type that the office chose; RULE line n, with
  what no file may say; NO EVIDENCE line n, with why; DIFFERS line n, with the
  published number and the computed one; and a line that counts these, readings,
  values by hand, estimates and struck values. With --fill the file with what
  holds in the place of each ? (a text, also ?.0 to ?.000 for decimals; a mark;
  a count of a house), and on standard error what differs and why it is refused.
With --sheet also PAGE line n, with what of a tenant's page isn't the file's:
  Number (not that of the line that it names), Line (it names none that it may
  show), Digits (they name none), Fixed (no date, identity, hash, copy of an
  older number), Element, Main (another user or month); and PAGE lacks line n,
  of a number of the user's that the page leaves out. Neither may be -.
Faults: LINE n FAULT 1 Header, 2 Row, 3 Order, 6 Unit, 7 Fact (not declared, or
  twice), 8 TooMany, 9 TooLarge, 10 End, and nothing after it.
Status: 0 where every number holds and every value has evidence, else 1";

/// Of `format`.
pub const FORMAT: &str = "Example:
  mbdc format house.image 2051

A new image is made as IMAGE.0.half-made, readable by its owner alone, and gets
its name once it is whole. A file that is there already is formatted in place
where it has exactly that length and holds zeros alone.
Faults: mbdc: format: 2 AlreadyFormatted, 3 Device; mbdc: file: IMAGE where the
  file can't be made, has another length or other content, is a link or a
  folder, or is open in another mbdc";

/// Of `run`.
pub const RUN: &str = "Example:
  mbdc run house.image lines.txt --gateway 192.0.2.10:10001

Lines of the script, and what each prints:
  AT seconds          sets the time stamp (Unix seconds) of the answers that
                      follow: nothing
  START line ident    begins the readout of a meter: STARTED
  ASK line            asks for the line's next request: SEND hex, or NONE
  HEAR line [hex]     an answer, or silence: AGAIN, READY, PART p MORE,
                      PART p LAST, FAILED n Name
  COMMIT              writes the pending changes to the image: COMMITTED n
  OFFICE text         a line of the billing office, see below: its reply
  POLL line ident     reads a meter over the gateway, which is bus line 1: each
                      step as above
  SEARCH budget       searches for meters over the gateway, with at most that
                      many selections: FOUND ident, SHARED number, BUDGET where
                      it was spent, SELECTIONS n
  GATEWAY LOST        once, where the gateway failed, or nobody answers for
                      120 s: it is silent from then on
  NO GATEWAY          for a POLL or a SEARCH without a gateway, and a POLL on
                      another bus line
  What is refused prints REFUSED n Name. Another line prints LINE i SYNTAX and
  ends the script.
Lines of the office, and their replies:
  n FIT ident line addr flat  adds a meter: OK n, once it is on the disk, as for
                              each command
  n MOVE ident flat           gives it to another flat
  n OUT ident                 removes it
  n SWAP old new addr         replaces it by another meter
  n CONFIRM serial            releases the readings up to that serial
  WINDOW from count           READING serial ident flat parts, PART i moment
                              hex; END readings
  REGISTER                    METER ident line addr flat open; END meters
  REPORT date                 the values that are dated by that date, as CSV;
                              END rows
  Else ERR SYNTAX, STORE, ORDER last, KNOWN, UNKNOWN, ADDRESS, BEYOND,
  GONE confirmed, FULL or MEMORY.
Words:
  line    bus line, 1 to 8
  ident   number, manufacturer, version and device type of a meter, as
          12345678.PAD.01.07
  addr    its primary address, 1 to 250, or S for secondary addressing: it is
          selected by its ident
  flat    1 to 12 of A-Z a-z 0-9 . - / _
  n       the number of the last command plus 1
Faults: mbdc: open: 1 NotImage, 2 Damaged sector, 3 Version, 4 Worn, 5 Device;
  mbdc: memory; mbdc: gateway where a link can't be connected; mbdc: file: IMAGE
  where the file can't be opened or is open in another mbdc";

/// Of `report`.
pub const REPORT: &str = "Example:
  mbdc report house.image 2024-12-31

Printed of the register: flat,meter,medium,line,address,open; of a date the
  values that are dated by it: flat,meter,serial,storage,function,tariff,
  subunit,value,unit. With --json an object a row
Nothing is written, and the image may be open in another mbdc.
Faults: mbdc: open: 1 NotImage, 2 Damaged sector, 3 Version, 4 Worn, 5 Device;
  mbdc: memory; mbdc: file: IMAGE where the file can't be opened";

/// Of `values`.
pub const VALUES: &str = "Example:
  mbdc values house.image

Printed at a terminal, or with --table: a line a meter, flat A2 before A10, with
  the first value that it stands at, how long ago it was heard, and its state:
  SILENT and FAILED in red, unless the variable NO_COLOR is set.
Printed elsewhere, or with --lines, for each registered meter by flat: METER
  flat ident medium, and NONE where no reading of it is held, else the serial
  and the minute (UTC) of the last one; STATUS hex words, the status byte that
  it sent. Of its current records (storage number 0, instantaneous):
  HEADLINE tariff subunit value unit  what the meter stands at, a line a tariff
  VALUE tariff subunit value unit     each that the due-date table has
  ALSO tariff subunit value unit quantity, qualifier ..  each other that is read
  n records not read                  where there are any
  With --json an object a meter
A reading that the office has confirmed isn't held any more. Nothing is written,
and the image may be open in another mbdc.
Faults: mbdc: open: 1 NotImage, 2 Damaged sector, 3 Version, 4 Worn, 5 Device;
  mbdc: memory; mbdc: file: IMAGE where the file can't be opened";

/// Of `status`.
pub const STATUS: &str = "Example:
  mbdc status house.image --silent 12h

Printed at a terminal, or with --table: the table of values. Elsewhere, or with
  --lines, for each registered meter by flat: METER flat ident, the minute (UTC)
  at which it was last heard and the seconds since, or NONE where nothing of it
  is held; SILENT where that is longer ago than TIME; the status byte of its
  last reading in words; JOURNAL where IMAGE.journal has a later reading. After
  it FAILED minute n Name where the last readout since then failed. Then SIZE
  bytes most; DAYS n: in n days the image is full at this pace; ROOM n: n more
  readings fit
A meter of which nothing is held is silent as long as the office has confirmed
no reading. Nothing is written, and the image may be open in another mbdc.
Status: 0 no meter is silent, 1 one is, 3 the image, 4 a file or memory.";

/// Of `fit`.
pub const FIT: &str = "Example:
  mbdc fit house.image meters.csv

Lines of the list; a comma, a semicolon, a tab or a space ends a field:
  meter,line,address,flat    the first line; its columns may have any order
  12345678.PAD.01.07,1,2,A1  identity, bus line 1 to 8, primary address 1 to
                             250, flat of 1 to 12 of A-Z a-z 0-9 . - / _
  18034063.PAD.49.06,1,S,A2  S or nothing: secondary addressing
Other columns are left out; what report IMAGE register prints is a list, too.
All rows are checked before the first is done. Where every row is right, each
prints its line:
  line i: n FIT ident line addr flat  a new meter: its command and its number
  line i: ident stands already        the register has it at this place
Where a row is wrong, only the wrong rows do, and nothing is done:
  line i: reason
The whole list is written at once: after a power cut all of it is done, or
nothing.
Status: 0 every meter stands, 1 a row is wrong, 3 the image or its disk, 4 a
  file or memory.";

/// Of `swap`.
pub const SWAP: &str = "Example:
  mbdc swap house.image 12345678 87654321.PAD.01.07 --flat A1

The new meter gets bus line and flat of the old one; the readings of the old one
stay. Printed is the command, n SWAP old new addr, n being its number; where it
is refused, why, and that nothing is done. A number alone is the registered
meter that has it. At a terminal, standard error says first what is done.
Status: 0 done, 1 refused, 2 the words, 3 the image or its disk, 4 a file or
  memory.";

/// Of `move`.
pub const MOVE: &str = "Example:
  mbdc move house.image 12345678 B2

Readings that are held keep the flat that they have. Printed is the command,
n MOVE ident flat, or why it is refused, as of swap.
Status: 0 done, 1 refused, 2 the words, 3 the image or its disk, 4 a file or
  memory.";

/// Of `out`.
pub const OUT: &str = "Example:
  mbdc out house.image 12345678

Readings that are held stay; the parts of a readout that isn't finished go.
Printed is the command, n OUT ident, or why it is refused, as of swap.
Status: 0 done, 1 refused, 2 the words, 3 the image or its disk, 4 a file or
  memory.";

/// Of `copy`.
pub const COPY: &str = "Example:
  mbdc copy house.image backup.image

The copy is what the image's file held at one instant; a poll or a run may go on
meanwhile. It is made under a name of its own, and gets its name once it is
whole and on the disk.
Status: 0 done, 3 a sector can't be read, 4 a file or memory.";

/// Of `rescue`.
pub const RESCUE: &str = "Example:
  mbdc rescue house.image new.image

For an image that mbdc doesn't open, or says of that a sector is ahead. It isn't
changed, and the new one has as many sectors. Printed, a fact a line:
  WHOLE         nothing is lost: the new image has all that the image says
  WITHOUT n     sector n is damaged and left out. 1 or 2 is a root sector, which
                names the half that counts: the other root is used. Any other n
                is in a half: the new image ends before the commit at n
  OLDER n root  reading stops at sector n, and without it too. So the newer root
                sector (1 or 2) is left out, and the other one is used: what was
                written when a half was full may be lost
  LOST n        n later commits left a trace, and aren't in the new image
Then what inspect prints of the new image.
Status: 0 the new image has the state, 3 nothing can be rescued or written, 4 a
  file or memory.";

/// Of `inspect`.
pub const INSPECT: &str = "Example:
  mbdc inspect house.image

Printed, a fact a line: DISK sectors; ROOT slot version generation session half,
  or NONE or UNREADABLE, of each root slot; then of an image that reads as a
  state VERSION, HALF, GROUPS, SECTORS used free, SIZE bytes most, METERS,
  READINGS n first last, MARK serial, COMMAND n; and REFUSED n Name [sector] of
  one that doesn't open.
Nothing is written, not even the next session. The image may be open in another
mbdc.
Faults: mbdc: open: 1 NotImage, 2 Damaged sector, 3 Version, 4 Worn, 5 Device;
  mbdc: memory; mbdc: file: IMAGE where the file can't be opened";

/// Of `demo`.
pub const DEMO: &str = "Example:
  mbdc demo

Nothing is left behind: the image is in memory, and the gateway is a socket of
this process to itself on 127.0.0.1. Printed is what run prints: a meter is
fitted and read out, each part committed before the next is asked for, and the
value at its due date reported.
Faults: mbdc: gateway where no such socket is given; mbdc: memory";

/// Of `poll`.
pub const POLL: &str = "Example:
  mbdc poll house.image --line 1=tcp://192.0.2.10:10001

Each line's meters are read one after the other, in order of identity, all lines
at once; those that failed are read again after the line's others. Telegrams are
committed to the image before the next ones are requested. --only takes a number
alone, as 12345678, where one registered meter has it. Printed as each readout
ends:
  READ ident serial parts  a whole reading, its serial and its number of parts
  FAILED ident n Name      the last try failed, and why, as in run
  REFUSED ident n Name     the register or the disk refused it
  LINE n LOST              the link of line n failed, or nobody answers for
                           120 s: the line is given up
  LATE line n              n times bytes came on that line although no meter
                           could still have been answering: make --patience
                           longer
  END read failed
With --json an object an event. On a terminal, standard error shows how far it
is, and the table of values follows END. --trace FILE gets each request and
answer, as of scan. Where the clock is earlier than a time stamp of the
register, or goes back meanwhile:
mbdc: clock: behind the newest reading
mbdc: clock: went back during the poll
Status: 0 every meter was read, 1 one wasn't, 3 the image, 4 a link, a file or
  memory.";

/// Of `scan`.
pub const SCAN: &str = "Example:
  mbdc scan tcp://192.0.2.10:10001

Printed: FOUND ident for each meter, SHARED number for a number that more than
one meter has, BUDGET where the budget was spent, SELECTIONS n, OTHER mask CI n
where a meter sends another CI than 72, and LATE n where n times bytes came
although no meter could still have been answering. With --primary: ADDRESS n for
each address that acknowledges, and its ident where its telegram can be read. A
meter begins its readout anew afterwards; nothing is stored. On a terminal,
standard error shows how far it is, and each meter as it answers, with its
medium and value. Where answers were no frame, a line on standard error counts
them at the end.
--csv N prints a list of bus line N that fit takes once its flats are filled in:
  meter,line,address,flat,medium,value
All else that was found goes to standard error then. --json: an object a meter.
After 16 answers of which none is a frame the search is given up, status 1.
Nobody answers: is the bus powered, are speed and parity right? SHARED: read
these meters by their primary addresses (scan --primary).
--trace FILE gets milliseconds, bus line, > or <, hex digits, and what they are:
frame, E5, no frame or silence; - is standard error.
Faults: mbdc: gateway where the link can't be connected or is lost; mbdc: memory";

/// Of `address`.
pub const ADDRESS: &str = "Example:
  mbdc address tcp://192.0.2.10:10001 0 7

Nobody may answer at NEW, and one meter has to answer at OLD; else nothing is
changed. Then the meter gets its new address, and is read there. Printed:
  ADDRESS NEW ident                            it answers there
  address NEW is taken: somebody answers there
  address OLD: no meter acknowledges there
  address OLD: several meters answer, or one that can't be read
  address NEW: ident doesn't answer there      the change was sent: read both
A meter without an address has 0. OLD may be its identity: it is selected then,
and named so in these lines. Nothing else is written to any meter.
Status: 0 the meter answers at NEW, 1 it doesn't, 4 the link or memory.";

/// Of `read`.
pub const READ: &str = "Example:
  mbdc read tcp://192.0.2.10:10001 12345678.PAD.01.07

Printed is what decode prints of the telegrams, each before the meter is asked
for the next one. Nothing is stored. Where the readout fails, FAILED n Name
follows and the status is 1; standard error says what the failed tries brought:
mbdc: 12345678.PAD.01.07: 3 tries failed: 2 silent, 1 unreadable. LATE n comes
last where n times bytes came although no meter could still have been answering.
A number alone, as 12345678, is the one meter on the bus that has it; SHARED
number where several have it, or where the answers of one are damaged. Address 0
is that of a meter that got none; it is selected once it is known.
--trace FILE gets each request and answer, as of scan.
Faults: mbdc: gateway where the link can't be connected or is lost; mbdc: memory";
