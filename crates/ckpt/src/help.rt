//! What stands at the end of the help of each program: an example, and its exit statuses.

pub const LIMITS: &str =
    "Limits: 16 spaces, 1,024 areas of a space, 65,536 mapped pages of 4,096 bytes in all,
addresses below 2^47, 1 to 64 bytes a load or store, 64 images a store; a checkpoint
needs two free slots, and one more a round; a merge needs one. A run's journal has 1,048,576
entries: one a command, two a checkpoint. After that many both are answered refused 7
journal-full; trim makes room up to the last checkpoint. The cause of a failure is reported on
standard error.";

pub const RUN_HEAD: &str = "Example:
  ckpt run store examples/first.ckpt
  ckpt run --check examples/first.ckpt

Lines of SCRIPT, with fields separated by single spaces; numbers are decimal or 0x and
hexadecimal; empty lines and those that begin with # are skipped:
";

pub const RUN_TAIL: &str = "
Status: 0 at the end of the script, also where requests were refused, but with --strict; 1
where the store, its device, memory or the printing failed (damaged SSS WHY, device,
out-of-memory, cannot open DIR, cannot read SCRIPT), or the file of --stats can't be made, or
is a slot's, SCRIPT or that of the answers (cannot write FILE: nothing is run), or not all of
it can be written, and with --strict at the first request that is refused or answered segv; 2
where a line of SCRIPT doesn't fit the language (script line N: nothing is run) or the command
line doesn't; with --restore, 3 where the store shows no checkpoint afterwards.

Only one of run, shell, merge, mutate, import and drop can have a store open at a time.";

pub const SHELL: &str = "Example:
  printf 'mmap 1 0x10000 4096 rw\\ncheckpoint 0\\n' | ckpt shell store

Answers the lines of the standard input, which are those of a script, one by one; all answers are
written before it waits for more. A line that doesn't fit the language is answered with script
line N and changes nothing; what is wrong with it is reported on standard error. It ends with the
input, or with the line quit. Where input and output are a terminal it asks for each line, and
help lists the requests. Beside the lines of scripts it takes

  put SPACE ADDRESS LENGTH   and LENGTH raw bytes after the line, 1 to 1,048,576: stores them
  get SPACE ADDRESS LENGTH   answers bytes LENGTH, a newline and the raw bytes

as stores and loads of at most 64 bytes; the first that is refused ends it, and its address
stands in the answer. After a device call that failed, reopen opens the store again.

Status: 0 at the end of the input, also where requests were refused; 1 where the store, its
device, memory, the input or the printing failed (damaged SSS WHY, device, out-of-memory,
cannot open DIR, cannot read SCRIPT); 2 for a fault of the command line.

Only one of run, shell, merge, mutate, import and drop can have a store open at a time.";

pub const RESTORE: &str = "Example:
  ckpt restore store
  ckpt restore --json store

Prints checkpoint N; for each space a line space N, its areas as area FIRST END PROT, and
bytes ADDRESS HEX for each 32 bytes that aren't all zeros. With --json the document has no bytes,
but the number of pages, and of those that are zeros. With --checkpoint N it is the memory at
that checkpoint, where the store still has it, also with --json; history prints which it has.

Status: 0 where a memory was printed; 3 where the store shows no checkpoint (empty chain), or has
no image of checkpoint N (no checkpoint N);
1 where the store, its device, memory or the printing failed (damaged SSS WHY, device,
out-of-memory, cannot open DIR); 2 for a fault of the command line.";

pub const LIST: &str = "Example:
  ckpt list store

Prints for each open image, rising by serial, slot SSS KIND serial N stands N parent N
checkpoint N pages N; and then tip N, the serial of the newest dump or merged image, or tip
none. Whether the tip can be restored isn't checked: verify does that.

Status: 0; 1 where an open slot is no image, or the device, memory or the printing failed
(damaged SSS WHY, device, out-of-memory, cannot open DIR); 2 for a fault of the command line.";

pub const VERIFY: &str = "Example:
  ckpt verify store

Makes all checks of a restore, the digest of each image among them. Prints ok checkpoint N images K,
with the number of open images, or ok empty where the store shows no checkpoint. An image whose gate
byte was lost reads as closed, and an older checkpoint is then the newest: --at-least N finds it.

Status: 0 where it printed ok; 3 where the store has no image of checkpoint N (no checkpoint N);
1 where the newest checkpoint is below that of --at-least; 1 where the store can't be restored, or the device, memory or
the printing failed (damaged SSS WHY, device, out-of-memory, cannot open DIR); 2 for a fault
of the command line.";

pub const HISTORY: &str = "Example:
  ckpt history store
  ckpt restore --checkpoint 3 store

Prints for each checkpoint that can be restored, newest first, checkpoint N slot SSS serial N
images N pages N own N: the slot and the serial of its image, how many images it needs, its mapped
pages, and the bytes of the files that no other checkpoint needs; and newest after the one that
restore prints. Then it prints for each image that none of them needs, rising by serial,
unneeded slot SSS KIND serial N checkpoint N. A checkpoint lives until a merge closes its images, or a
later one takes their slots after the store was opened again.

Status: 0; 1 where an open slot is no image, or the device, memory or the printing failed
(damaged SSS WHY, device, out-of-memory, cannot open DIR); 2 for a fault of the command line.";

pub const DIFF: &str = "Example:
  ckpt diff store 1 2

Prints, rising by space and address, a line for each run of pages that differ alike between the
memories at checkpoints OLD and NEW: + SPACE FIRST-END PROT pages that are mapped in NEW alone, -
SPACE FIRST-END PROT in OLD alone, ~ SPACE FIRST-END PROT PROT in both with other permissions, and
* SPACE FIRST-END PAGES in both with other bytes. END is the address after the last page. Then it
prints came N went N protected N written N, with numbers of pages. Pages that both checkpoints take
from one place of one image aren't read, but for the digest of that image.

Status: 0 where it printed that, also where nothing differs; 3 where the store has no image of one
of them (no checkpoint N); 1 where the store, its device, memory or the printing failed (damaged
SSS WHY, device, out-of-memory, cannot open DIR); 2 for a fault of the command line.";

pub const DROP: &str = "Example:
  ckpt drop store 5

Closes the image in img-SSS where the newest checkpoint doesn't need it, damaged or not, and prints
dropped SSS. What the store shows stays the same, also if it is cut off; a checkpoint that needs the
image can't be restored afterwards. The newest checkpoint needs its own image, and those to which
its parent numbers lead; a damaged image counts as needed where the others show no checkpoint.
It prints kept SSS needed where that is so, and kept SSS closed where the slot has no open image.
Where another image is damaged it isn't known which are needed: damaged SSS WHY names it.

Status: 0 where the image was closed; 1 where it stays (kept SSS needed, kept SSS closed, damaged
SSS WHY), or the device, memory or the printing failed (device, out-of-memory, cannot open DIR);
2 for a fault of the command line.

Only one of run, shell, merge, mutate, import and drop can have a store open at a time.";

pub const SHOW: &str = "Example:
  ckpt show store
  ckpt show store 3 --json

Prints what stands in the image files. For each slot a line slot SSS raw, slot SSS closed or slot
SSS open; of an open one damaged WHY and a reason in words where the file is no image, the
fields of its header, whether its digest is right or wrong (none: it has version 1), and for each
space a line space N, its areas as area FIRST END PROT, and its runs as run KIND first PAGE pages N,
with offset N where they are of data. What is damaged is printed as far as it can be read, of
its table the first 2 MiB.

Status: 0 where no slot is damaged; 1 where one is, or the device, memory or the printing failed
(device, out-of-memory, cannot open DIR); 2 for a fault of the command line.";

pub const MERGE: &str = "Example:
  ckpt merge store

Merges the newest checkpoint's chain of images into one image, closes those that are no
longer needed, and prints merged SERIAL or refused N NAME. What the store shows stays the
same, also if it is cut off. An empty store answers refused 14 idle.

Status: 0 where the chain was merged; 1 where the merge was refused, or the store, its
device, memory or the printing failed (damaged SSS WHY, device, out-of-memory, cannot open
DIR), or the file of --stats can't be written (cannot write FILE); 2 for a fault of the command line.

Only one of run, shell, merge, mutate, import and drop can have a store open at a time.";

pub const MUTATE: &str = "Example:
  ckpt mutate store 4

Needs a store without an image. Each thread stores the numbers 1 to 1,000 at the start of a page
of its own, from 0x100000 on in space 1, and loads each back. Meanwhile two checkpoints of two
rounds are made, the second beside a merge, and a third one when all have ended. Prints threads T
stores S acked N, and then close ok where the journal accounts for what each thread was answered, or
close failed.

Status: 0 where all was done and accounted for; 1 where a checkpoint or a thread was refused, or
the store has an image (store not empty), or the store, its device, memory or the printing
failed (damaged SSS WHY, device, out-of-memory, cannot open DIR); 2 for a fault of the command
line.

Only one of run, shell, merge, mutate, import and drop can have a store open at a time.";

pub const EXPORT: &str = "Example:
  ckpt export store cores
  gdb -batch -ex 'x/s 0x10000' -c cores/space-1.core
  ckpt export --notes core.4711 --checkpoint 1 store cores
  gdb -batch -ex backtrace program cores/space-1.core

Writes for each space that the store shows a file OUT/space-N.core: an ELF core file of
x86-64 with one segment an area, and holes for pages of zeros. It has memory alone: no
registers, no threads. With --notes CORE it has the notes of that core, and so its registers,
mapped files and the program's name;
    they fit the checkpoint that was imported from it. A file gets its name when all are whole and on the device;
    one that
is there is replaced only with --force. A file of an older export whose space the store no
longer shows stays, also with --force. Beside a run it tries again for a second, as restore does.

Status: 0 where the files were written; 3 where the store shows no checkpoint (empty chain), or has
no image of checkpoint N (no checkpoint N);
1 where the store, its device, memory or the files failed (damaged SSS WHY, device,
out-of-memory, cannot open DIR, cannot write OUT), or the core of --notes isn't read (not a core,
core too large, cannot read CORE), or the store doesn't show space N (refused 3 no-such-space);
2 for a fault of the command line.";

pub const IMPORT: &str = "Example:
  gcore -o core 4711
  ckpt import store core.4711
  ckpt import store monday.core tuesday.core

Opens all cores, and imports one after the other. Of each it compares
the segments with what the space has, maps, unmaps, protects and stores what differs, prints
imported PAGES changed PAGES, makes a checkpoint, and prints acked N. The first image of a run is
whole; each later one has as data only what changed since the core before.
The other spaces stay as they are. A space that isn't alive is made where it has the least
number that is free, as a child of the space with the fewest pages, which has to fit beside all others.
Segments of the kernel's addresses are left out; what a segment doesn't
have in the file is zeros. Each piece of up to 64 bytes that differs is one command, so a
core of which more than some 64 MiB differ can't be imported at once (refused 7
journal-full).

Status: 0 where each checkpoint was acknowledged; 1 where a CORE isn't read or has no memory (not a
core, core too large, cannot read CORE), another program changed it meanwhile (core changed), the file of
--stats can't be written (cannot write FILE), a request
was refused (refused N NAME), or the store, its device, memory or the printing failed
(damaged SSS WHY, device, out-of-memory, cannot open DIR); 2 for a fault of the command
line. With status 1 nothing is saved of that core and of those after it, but where the device
failed at the checkpoint's last step or acked N wasn't printed: verify then says what is saved.

Only one of run, shell, merge, mutate, import and drop can have a store open at a time.";

pub const SEND: &str = "Example:
  ckpt send store > stream
  ckpt send --since 5 store > stream
  ckpt send --follow store | ssh HOST ckpt receive other

Writes the images of the newest checkpoint as a stream, parents first, with the number of each
checkpoint after its last image, and at the end the SHA-256 of all of it; docs/FORMATS.md has its
bytes. With --since N the images that lead from checkpoint N to the newest, for a receiver that
has N; all of them where its image doesn't lead there. It never writes into DIR. When all is sent,
standard error has sent COUNT images BYTES bytes, with --json a document of both. Beside a run it
fails where an image that it sends is closed meanwhile. With --follow it goes on beside a run: each
further checkpoint is sent as it comes, until the run ends.

Status: 0 where all was sent; 3 where the store shows no checkpoint, or has no image of checkpoint
N; 1 where the store, its device, memory or the writing failed, DIR isn't opened, the checkpoint
that was sent last is gone (with --follow), or the standard output is a terminal; 2 for a fault of
the command line. Standard output has a stream or a beginning of one, and nothing else.";

pub const RECEIVE: &str = "Example:
  ckpt send store | ckpt receive other
  ckpt send --since 5 store | ckpt receive other
  ckpt receive --tip other

Takes the images of a stream of send into free slots of the store in DIR, and prints received N
after each checkpoint, once it is durable: the store shows it then, with the sender's memory. If it
is cut off at any moment, the store shows what it showed before, or a checkpoint that had arrived,
and none before the last received N. An image is there only after its header, its table and its
digest were checked. A stream of send --since N is taken where the store shows N with the same
memory, one without --since where it shows no checkpoint. Pre-dumps that a stream left which was cut
off are closed before. With --tip it only prints tip N DIGEST: what the store shows, and the SHA-256
of what restore prints of it. When all was received, standard error has received COUNT images. With
--json that is a document, and so is what --tip prints.

Status: 0 where all was received, or the tip was printed; 3 where there is no tip (empty chain); 1
where the stream ends early, is damaged (damaged stream WHY) or continues another checkpoint (base
differs: DIR shows N, the stream begins at M), no slot is free (no-slot), or the store, its device,
the memory or the printing failed (damaged SSS WHY, device, out-of-memory, cannot open DIR), or the
standard input is a terminal; 2 for a fault of the command line. What was received stays.

Only one of run, shell, merge, mutate, import, drop and receive can have a store open at a time.";
