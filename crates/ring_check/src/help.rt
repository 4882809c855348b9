//! The texts of the help.

/// The version, which is that of the library.
pub static VERSION: &str = "0.1.0";

pub static ABOUT: &str =
    "Judges a recorded run of a ring or a queue: whether some history explains what each thread recorded.";

pub static FILE: &str = "The file with the run; `-` is standard input";

pub static JSON: &str = "Print an object of JSON";

pub static AFTER: &str = "\
A run is a text. Its first line says what was recorded. A line that is empty or begins with # is skipped:

  queue                  the run is of a queue with any number of producers and one consumer
  sent P N [BODY]        call N of producer P was accepted, and BODY is a checksum of its bytes
  refused P N [BODY]     call N of producer P was refused, or its claim was aborted
  got P N [BODY]         the consumer was shown the message of call N of producer P
  empty                  all producers had returned, and the consumer found nothing more

  broadcast              the run is of a broadcast buffer, with one transmitter and any number of receivers
  transmitted N [BODY]   message N was transmitted: 0, 1, 2 and so on; BODY is a checksum of its bytes
  received R N [BODY]    receiver R was given a copy of message N
  lapped R COUNT         receiver R was lapped, COUNT times by now
  empty R                the transmitter had returned, and receiver R found nothing more

  ring CAPACITY [START]             the run is of a ring of CAPACITY bytes, whose positions begin at START
  committed P AT TYPE LENGTH [BODY] producer P claimed room for a message at the position AT, and committed it
  aborted P AT TYPE LENGTH          producer P claimed room at AT, and aborted the claim
  open P AT TYPE LENGTH             producer P claimed room at AT, and neither committed nor aborted the claim
  full P LENGTH                     producer P was refused a message of LENGTH bytes, since the ring had no room
  got AT TYPE LENGTH [BODY]         the consumer was shown the message at AT; AT is - if the consumer does not know it
  head AT                           a read had returned, and the head was at AT
  empty                             all producers had returned, and the consumer found nothing more
  positions HEAD TAIL               all threads had ended, and the head and the tail were at these positions
  word AT VALUE                     the word of the buffer at the position AT had this value then
  rest                              all other words of the buffer were 0 then

Numbers are decimal. P and R are at most 65535. A TYPE is at most 2147483647, a LENGTH at most 4294967295, and a
CAPACITY is a power of two from 128 to 1073741824. Other numbers are at most 18446744073709551615. A position is a
number of bytes. It only rises, and does not start again at the end of the buffer.

The lines of one producer or receiver are in the order of its calls. The lines of the consumer are in the order in which
messages were shown. The lines of different threads may be in any order. For example, a file may have one thread's lines
after another's.

The verdict on a queue is yes if there is an order of the accepted messages that explains the run. In this order the
messages of each producer are in the order of its calls. The order begins with the messages that were shown. If there is
a line `empty`, no further message follows them. Otherwise the verdict is no, with the first line of the consumer that
no such order explains.

The verdict on a broadcast buffer is yes if the lines of each receiver keep these rules:

  - The messages of the receiver follow one another, except after its lapped count rose.
  - If the count rose, the receiver missed at least as many messages as the count rose by.
  - No message was left for the receiver at its lines `empty`.

Otherwise the verdict is no, with the first line of a receiver that breaks these rules.

The verdict on a ring is yes if the lines keep these rules:

  - Each claim begins at the end of the claim before it, or after padding up to the end of the buffer if its record
    would cross this end. No claim takes the room of an open claim.
  - At some time between the claims of the producer before and after a refusal, the ring can have been full.
  - The messages that were shown are those of the committed claims, in the order of their positions. The consumer passes
    aborted claims and padding, and never an open claim. No message is left at a line `empty`.
  - The consumer can have moved the head to its position, and the tail is at the end of the last claim.
  - The words from the head on are the headers of the claims that are left and of padding, any words of bodies, and 0.

Otherwise the verdict is no, with the first line that breaks these rules. Claims are judged in the order of their
positions, and then the lines of the consumer are judged.

The status is 0 for a yes and 1 for a no. It is 2 if the command line was refused, the file cannot be read, or the file
is not a run.";
