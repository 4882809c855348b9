//! The texts of the help.

/// The version, which is that of the library.
pub static VERSION: &str = "0.1.0";

pub static ABOUT: &str =
    "Shows what is in a ring, a broadcast buffer or counters, from a copy of their memory or from a running program.";

pub static AFTER: &str = "\
The copy has words of 64 bits, little-endian. Broadcast buffers and counters have the layout of Agrona's buffers. A ring
has this layout too if its bodies are among its words. All rings of C, C++, Rust and Python store their headers
and bodies separately, in as many bytes as the ring's buffer has. The option --bodies-at is the place of these bytes.

The line below the positions is a picture of the buffer, from its first byte to its last:
  a ring:  H head   T tail   = committed   O open   x aborted   - aborted, or padding   ? header not yet stored   . free
  a board: L latest   T tail   I tail intent   = valid   ~ lapped   - padding   . not listed

A file may be /proc/PID/mem, with the address as --at. The memory of the running program is then shown as it was while
it was read. If the positions changed meanwhile, the memory is read again, up to three times. If it then shows an open
claim, a second look follows 250 ms later. A consumer is blocked if both looks saw the same claim and the same head.

A terminal gets colours unless the variable NO_COLOR has a value.

The command recover lists the messages that a ring of a killed process has left, each once and in order. It skips claims
that were open or aborted, and those of which no header was stored. FILE is an image, which is the memory of a ring that
C, C++, Rust or Python made in memory of the caller. With --bodies-at the file may be any copy of such a ring's words.

Findings about the memory are printed on standard error, one on each line.

The status is 0, or 1 if the memory has a finding. It is 2 if the command line was refused or nothing could be read.";
