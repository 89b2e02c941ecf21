// The page of forms. specs/Page.antt has it with the number of each.
#![tactic(auto)]

ghost use Rattle.std.specs.Prelude.{◌≡◌};
ghost use Rattle.page.specs.Page.{form};

use forms::fill;
use writing::Row;

// Form n with three numbers, behind the row. The number is the line of the page, as the definitions count them, and not a kind that an enum would name.
pub fn form(r: Row, n: usize, a: u64, b: u64, c: u64) -> Row
    ensures { result ≡ form n a b c r }
{
    fill(
        b"%f  \n\
\x20      \n\
: done\n\
: started, busy\n\
: refused %n\n\
:\n\
\x20%n bytes:\n\
%>\n\
\x20.. %n bytes\n\
\x20.. over 65536 bytes\n\
\x20> %n\n\
\x20> over 65536\n\
done\n\
cut %n\n\
new%>a new chip, all memory FF, part BA\n\
new old%>a new chip, all memory FF, part old\n\
\x20ended\n\
\x20stopped after %n of %n\n\
\x20stopped before it acted\n\
\x20stopped after it acted\n\
nothing ran; power-up\n\
refused %n\n\
\x20line  sent                    answer and reply\n\
#\n\
done\n\
record not well-formed, or a length outside \"Sizes\"\n\
frame empty\n\
opcode not listed, or not in this protocol\n\
length not as listed\n\
BUSY, and opcode not 05, 66, 99, B0\n\
99 with no enable\n\
6B, 32 or EC with IOC 0\n\
suspension rule\n\
WEL needed and 0\n\
42 or 98 with WPLD 1; A5 or 85 with SEC 1; A5 to places 0 to 7\n\
20, D8, 02, 32 in a write-locked block; C7 with a write lock set\n\
completion with nothing running\n\
a C0 byte above 03\n\
a busy or suspended chip\n\
, burst of %n\n\
nothing\n\
erase of sector %n\n\
erase of block (bit %n)\n\
erase of the array\n\
program of page %n\n\
program of Security ID page %n\n\
lock of the Security ID\n\
write of the configuration, IOC %n, WPEN %n\n\
add of permanent bits %r\n\
, %a to %a\n\
, %p to %p\n\
\n\
a frame has at least its opcode\n\
%b is not listed\n\
%b is listed in SPI only\n\
%b is listed in SQI only\n\
%n byte%s sent, %b takes %n in SPI\n\
%n byte%s sent, %b takes %n in SQI\n\
%n byte%s sent, %b takes %n or more in SPI\n\
%n byte%s sent, %b takes %n or more in SQI\n\
\x20runs\n\
66 must come right before 99\n\
IOC is 0; 01 sets it\n\
nothing runs\n\
\x20cannot be put aside\n\
\x20is suspended already\n\
nothing is suspended\n\
\x20is suspended; 30 resumes it\n\
\x20is suspended: no second erase\n\
\x20is suspended and holds the page\n\
\x20is suspended: no second program\n\
\x20is suspended, and the range holds it\n\
WEL is 0; 06 first\n\
WPLD is 1 until power-up\n\
SEC is 1 for good\n\
a byte goes to places 000 to 007\n\
block %a to %a, bit %n, is locked; 98 or 42 opens it\n\
block %a to %a, bit %n, is locked, and WPLD is 1 until power-up\n\
block %a to %a, bit %n, is locked for good\n\
%b sent; 00, 01, 02 and 03 set 8, 16, 32 and 64\n\
the array has %n bytes, not 2097152\n\
the Security ID has %n bytes, not 2048\n\
the frame has more than 65536 bytes\n\
the reply has more than 65536 bytes\n\
the reply has %n byte%s, the marks %n\n\
the protection register is 2^48 or more\n\
the permanent register is 2^48 or more\n\
a read lock is permanent\n\
a permanent bit is not set in the protection register\n\
the running sector, block or page is out of range\n\
the suspended sector, block or page is out of range\n\
suspended work is no sector erase, block erase or page program\n\
two erases, two programs, or an overlap with the suspended work\n\
the running range has a write lock\n\
the suspended range has a write lock\n\
Security ID work with SEC 1, or into places 000 to 007\n\
the buffer is not FF, and no program runs or is suspended\n\
, part old\n\
, part BA\n\
\n\
no operation\n\
enable reset\n\
reset\n\
to SQI\n\
to SPI\n\
read status\n\
read configuration\n\
read protection\n\
read identity\n\
read identity\n\
read\n\
read\n\
read\n\
read Security ID\n\
write enable\n\
write disable\n\
erase sector\n\
erase block\n\
erase array\n\
page program\n\
page program\n\
program Security ID\n\
lock Security ID\n\
write configuration\n\
write protection\n\
set permanent bits\n\
lock protection down\n\
clear write locks\n\
suspend\n\
resume\n\
set burst\n\
read burst\n\
read burst\n\
opcode %b\n\
\x20%a, %n byte%s\n\
\x20%r\n\
\x20%p\n\
\x20%p, %n byte%s\n\
\x20%b\n\
\x20%a\n\
status %b\n\
BUSY: an operation runs\n\
WEL: writes are enabled\n\
WSE: an erase is suspended\n\
WSP: a program is suspended\n\
WPLD: protection is locked down until power-up\n\
SEC: the Security ID is locked for good\n\
configuration %b\n\
IOC: quad input and output on\n\
BPNV: no permanent bit is set\n\
WPEN: the WP# pin is enabled\n\
protocol SPI\n\
protocol SQI\n\
, reset enabled\n\
, reset not enabled\n\
no bit is set\n\
running: \n\
suspended: \n\
protection %r, permanent %r\n\
%a to %a  \n\
open\n\
write-locked\n\
read-locked\n\
write-locked, read-locked\n\
permanent\n\
write-locked for good\n\
read-locked, permanent\n\
write-locked for good, read-locked\n\
locked down: WPLD 1\n\
not locked down: WPLD 0\n\
dump %a, %n byte%s\n\
dump of the Security ID %p, %n byte%s\n\
wrong: \n\
the line ends too early\n\
\"\n\
..\n\
\" at column %n\n\
allowed: \n\
hint: \n\
a byte is two hex digits, as 06\n\
bytes stand apart, as DE AD BE EF\n\
words are lower case, as done\n\
expected from +%o\n\
at +%o: the chip gave \n\
, the script expects \n\
the script expects %n byte%s, the reply has %n\n\
the script expects done\n\
the script expects refused %n\n\
the script expects the reply kept\n\
strict: the script expects no refusal\n\
the script expects %n byte%s, the dump has %n\n\
at %a: the memory has %b, the script expects %b\n\
%n event%s, %n refused, %n difference%s\n\
, %n wrong line%s\n\
a script without an event checks nothing\n\
+%o\n\
.. %n more byte%s; the line \"full\" shows all\n\
%a\n\
\x20 |\n\
|\n\
%b\n\
unknown %b\n\
any byte\n\
the script expects at most 2 bytes of status\n\
the records differ from the line\n\
%n script%s: \n\
%f \n\
\n\
fill %a, %n byte%s of %b\n\
fill of the Security ID %p, %n byte%s of %b\n\
buffer from place %n, %n byte%s of %b\n\
lent: %n bytes of the array, %n of the Security ID\n\
the record is set as the line says\n\
the memories hold a pattern\n\
strict: a refusal that no ! expects is a difference\n\
long replies in full\n\
long replies cut after 64 bytes\n\
the record is as the line says\n\
the record is not as the line says\n\
%n difference%s in all\n\
\x20       in all: \n\
\n\
a byte, >, done, cut, status, work, locks, dump, new, fill, ..\n\
a byte, * how often, torn, > a count, ! a number, # remark\n\
how often, from 1\n\
a byte, torn, > a count, ! a number, # remark\n\
a count of reply bytes, in decimal\n\
/ a count, = expected bytes, ! a number, # remark\n\
a count of mark bytes, in decimal\n\
= expected bytes, ! a number, # remark\n\
a byte, ??, ~ a byte, kept\n\
a byte, ??, ~ a byte, * how often, ! a number, # remark\n\
a byte\n\
how often, from 1\n\
a byte, ??, ~ a byte, ! a number, # remark\n\
a number from 0 (done) to 18\n\
nothing more, or # remark\n\
! a number, # remark\n\
a count of bytes, in decimal\n\
= expected bytes, # remark\n\
a byte, ??, ~ a byte\n\
a byte, ??, ~ a byte, * how often, # remark\n\
a byte\n\
how often, from 1\n\
a byte, ??, ~ a byte, # remark\n\
id, or a place of the array, one to six hex digits\n\
a place of the Security ID, one to six hex digits\n\
a count of bytes, in decimal\n\
id, or a place of the array, one to six hex digits\n\
a place, one to six hex digits\n\
a count of bytes, in decimal\n\
a byte\n\
how many bytes of the array are lent, in decimal\n\
how many bytes of the Security ID are lent, in decimal\n\
protect, perm, run, aside, burst, sqi, wel, ioc, wpen, wpld, ..\n\
a register, one to sixteen hex digits\n\
a register, one to sixteen hex digits\n\
sector, block, array, page, id, lock, config, bits\n\
sector, block, array, page, id, lock, config, bits\n\
its number, one to sixteen hex digits\n\
its number, one to sixteen hex digits\n\
/ a count, ! a number, # remark\n\
a count of mark bytes, in decimal\n\
a byte, ~ a byte, ??, * how often: ?? alone expects nothing\n\
how often, from 1\n\
a byte, ~ a byte, ??: ?? alone expects nothing\n\
a byte, ~ a byte, ??, * how often: ?? alone expects nothing\n\
how often, from 1\n\
a byte, ~ a byte, ??: ?? alone expects nothing\n\
8, 16, 32 or 64\n\
raw, or the name of a file\n\
raw, or the name of a file\n\
the name of a file\n\
raw\n\
the name of a file\n\
old, or # remark\n\
a wrong mark, sum, page number, code or register\n\
save \n\
load \n\
save raw \n\
load raw \n\
compare raw \n\
saved, %n bytes\n\
loaded, %n bytes\n\
same, %n bytes\n\
differs in %n byte%s\n\
cannot be opened, there is no such file\n\
cannot be opened, that is not permitted\n\
cannot be opened\n\
cannot be read to its end\n\
cannot be written, there is no such folder\n\
cannot be written, that is not permitted\n\
cannot be written\n\
cannot be written, the name with .part is taken\n\
the file has %n byte%s, an image has 2148374\n\
the file is longer than an image, which has 2148374 bytes\n\
the file has %n byte%s, the array has 2097152\n\
the file is longer than the array, which has 2097152 bytes\n\
first difference at %a: the file has %b, the array %b\n\
record RG: \n\
record SI: \n\
record PG %n: \n\
mark is %b %b\n\
sum is %b %b\n\
page number is %b %b\n\
, it must be %b %b\n\
, the body's is %b %b\n\
burst code is %b, 03 is the last\n\
permanent %r has a read lock\n\
permanent %r is not within protection %r\n\
\x20is suspended\n\
a count of bytes, in decimal\n\
a byte, > a count, ! a number, # remark\n\
> a count, ! a number, # remark\n\
a byte, ! a number, # remark\n\
at %a, torn by %b: now %b\n\
at %p of the Security ID, torn by %b: now %b\n\
%b is not used: there is no byte %n\n\
torn is not used: only a done 99 while something runs looks at it\n\
no empty slot\n\
no live slot of that number\n\
polls used up, the write still runs\n\
a station's number, 0 to 65535, in decimal\n\
a byte of the data, or text\n\
a byte, * how often, polls, list, ! a number, # remark\n\
how often, from 1\n\
a byte, polls, list, ! a number, # remark\n\
a word, without blanks\n\
polls, list, ! a number, # remark\n\
how many polls a write may have, in decimal\n\
list, ! a number, # remark\n\
before which poll the first write ends, 0 to 65535; 0: never\n\
the next write's poll, * how often, ! a number, # remark\n\
how often, from 1\n\
the next write's poll, ! a number, # remark\n\
a station's number, 0 to 65535, in decimal\n\
= expected bytes, ! a number, # remark\n\
a byte, ??\n\
store %n\n\
find %n\n\
stations\n\
done, slot %n, %n poll%s\n\
slot %n  |\n\
the data has %n byte%s, a slot takes 28\n\
%n polls are allowed, 65535 is the most\n\
the write of number and data to slot %n runs\n\
the write of the mark of slot %n runs\n\
the clearing of the mark of slot %n runs\n\
station %f, slot %f  |\n\
.. %n more station%s; the line \"full\" shows all\n\
%n slot%s empty, %n live, %n of these passed over\n\
, %n dead\n\
, %n poll%s\n\
%n station%s\n",
        r,
        n,
        a,
        b,
        c,
    )
}
