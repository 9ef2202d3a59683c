//! What the program says of itself.

/// The version, as the file VERSION at the top of the repository has it.
pub const VERSION: &str = "0.1.0";

/// The first line of `xns --help`.
pub const ABOUT: &str =
    "xns 0.1.0: reads packets of the Xerox Network Systems, and plays Courier calls";

/// What `xns --help` says at its end. The pages that it names are those that `install.sh` installs.
pub const HELP: &str = "\
Each command reads a FILE, or standard input, and writes lines to standard output:
  dump   What the header and the body of each packet say is printed. The packets are
         those of a capture, or of lines of hex.
  calls  The Courier calls that these packets carry are printed, each once it is
         complete, and what came back.
  sim    A line is a call or an event. What came of the calls is printed.
  programs
         Descriptions of remote programs, in Courier's notation, are read. A line is
         printed for each program, each procedure and each error.

A capture is pcap or pcapng, and is known by its first bytes; any other FILE has
lines. Without a FILE, standard input has lines; a FILE called - is standard input,
for a capture or lines: `tcpdump -w - .. | xns calls -`.
The hex of a line begins at the checksum of the internet packet, right after the
Ethernet header.
A line has at most 4,096 bytes. An input of dump or sim has at most 65,536 lines.

Exit status:
  0    all is fine
  1    a packet or a line was refused; the output says which
  2    the command line is wrong, or a description of a program
  3    reading or writing failed, a capture can't be read on, a limit was passed, or
       there was no memory
  127  the processor is older than x86-64-v2

Examples:
  xns calls x.pcap
  echo 532300220002000000010000aa0001020002000000010000aa000304040000014869 | xns dump
  printf '%s\\n' 'call add 5' 'tick a' rest rest rest rest rest | xns sim
  xns programs tally.courier

`xns dump --help`, and so of each command, says more, and so does the manual page,
`man xns`. CAPTURES.md says what is read of a capture, NOTATION.md of a description,
FORMATS.md has every line that is read and printed: they are in docs/ of the source,
and in share/doc/xns where xns is installed.";

/// What `xns dump --help` says at its end.
pub const DUMP_HELP: &str = "\
FILE is a capture, pcap or pcapng, known by its first bytes, or has lines of hex.
Without a FILE, standard input has lines; a FILE called - is standard input, for a
capture or lines.
Of a capture each frame with an internet packet is read, and each line of the output
begins with the number of its frame. Two to four lines are printed for each packet:
the fields of its header, and what its body says.
A line of hex is one packet. Spaces and tabs are ignored, and digits are of either
case. It begins at the checksum of the internet packet, right after the Ethernet
header. Each line of the output begins with the number of the input line.
A line has at most 4,096 bytes, and there are at most 65,536 lines. A longer input is
read in parts: `split -l 65536 --filter='xns dump || [ $? = 1 ]' < FILE`.

Exit status: 0 all is fine, 1 something was refused, 2 the command line is wrong,
3 reading or writing failed, a capture can't be read on, a limit was passed, or there
was no memory.

Examples:
  xns dump x.pcap
  echo 532300220002000000010000aa0001020002000000010000aa000304040000014869 | xns dump

FORMATS.md has each line that is printed, CAPTURES.md says what is read of a capture:
both are in share/doc/xns where xns is installed.";

/// What `xns calls --help` says at its end.
pub const CALLS_HELP: &str = "\
FILE is a capture, pcap or pcapng, known by its first bytes, or has lines of hex, as
for dump. Without a FILE, standard input has lines; a FILE called - is standard input,
for a capture or lines: `tcpdump -w - .. | xns calls -` prints calls as they come.
A line is printed for each flow of items that begins; for each Courier call, return,
reject and abort once it is complete, in however many packets it came; for items that
had not come by that line, which are repeats if they come later; and for what is refused.
Each begins with the number of the frame, or of the input line, and then, but for what
is no packet, with the name of the flow: `1a` and `1b` are the two flows of the first
connection. A return, a reject and an abort name the frame or line of their call.
With --times, the time of the frame stands before each line of a capture, in seconds
since 1970, or with --times=relative since the first frame; and behind each answer how
long its call took. Lines of hex have no times.
With --programs FILE, again for each file, calls, returns and aborts are printed by name
and value where FILE describes their program in Courier's notation. A program that
depends upon another one stands behind it. The first fault of a FILE ends the run before
a packet is read, as for programs. Where something is declared, and its words are not
exactly one value, they are printed as they are, and `unread` at the end of the line has
the word that goes on no value, counted from 0, and the reason.
A line has at most 4,096 bytes.

Exit status: 0 all is fine, 1 something was refused, 2 the command line or a description
is wrong, 3 reading or writing failed, a capture can't be read on, a limit was passed, or
there was no memory.

Examples:
  xns calls x.pcap
  xns calls --times x.pcap
  xns calls --programs tally.courier x.pcap
  echo ffff003c0005000000010000aa0001020005000000010000aa0003040400100012345678000000000003000300030000000100000007000200010005 | xns calls

FORMATS.md has each line that is printed, CAPTURES.md says what is read of a capture,
NOTATION.md of a description: they are in share/doc/xns where xns is installed.";

/// What `xns sim --help` says at its end.
pub const SIM_HELP: &str = "\
Each line of FILE, or of standard input, makes a call, or lets something happen
between the caller, a, and the server, b:
  call add N      the call Add: N, at most 65535, is added to the server's tally
  call total      the call Total, which asks for the tally
  call raw PROGRAM VERSION PROCEDURE WORDS
                  any call; words have four hex digits, and - stands for none
  tick a, tick b  time has passed at an end: it retransmits what its peer did not
                  acknowledge, or asks its peer for a reply
  deliver K       packet K of all that were sent, counted from 0, arrives, for the
                  first time or again
  rest            each packet that has not arrived arrives once, in order
  foreign a HEX, foreign b HEX
                  bytes from elsewhere arrive at an end
An empty line, and a line that begins with #, is ignored. A packet that no line
delivers is lost.
It prints how many calls there were, how many the server carried out, what the
caller was answered, the tally's total, and how many packets were sent.
A line has at most 4,096 bytes, and there are at most 65,536 lines.

Exit status: 0 all is fine, 1 a line was refused, 2 the command line is wrong,
3 reading or writing failed, a limit was passed, or there was no memory.

Example:
  printf '%s\\n' 'call add 5' 'tick a' rest rest rest rest rest | xns sim

FORMATS.md has each line, WORLD.md says what happens in a play: both are in
share/doc/xns where xns is installed.";

/// What `xns programs --help` says at its end.
pub const PROGRAMS_HELP: &str = "\
Each FILE describes a remote program in Courier's notation. A program that depends
upon another one stands behind it. A FILE called - is standard input.
A line is printed of each program, with its number and version, and one of each of its
procedures and errors, with its number and the names of its arguments and results.
The first fault of a description ends the run. Standard error has its place, where
lines and columns count from 1, and a word for what is wrong: `x.courier:3:7 NoSemicolon`.
The programs before it are printed.

Exit status: 0 all is fine, 2 the command line or a description is wrong, 3 reading or
writing failed, or there was no memory.

Example:
  xns programs tally.courier

NOTATION.md has the notation, and each word that says what is wrong: it is in
share/doc/xns where xns is installed.";
