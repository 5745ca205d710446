//! Scripts, in which `|` stands for the end of a line, with what they stand for.

/// The events. Of a domain these are the name, heap, chunks, capabilities, threads, names and steps. Or else the first line at fault,
/// and its fault.
pub const SCRIPTS: &str = "\
| -> \n\
| \t || -> \n\
\r|\r| -> \n\
# every byte: \t !~|\t # domain a|#kill a -> \n\
domain hello| -> domain hello 65536 256 64 16 16 None\n\
domain heap -> domain heap 65536 256 64 16 16 None\n\
domain a23456789_123456789-123456789012| -> domain a23456789_123456789-123456789012 65536 256 64 16 16 None\n\
domain a stack 2 threads 1 steps 0| -> domain a 65536 2 64 1 16 Some(0)\n\
\tdomain  a steps 1000000000\tthreads 4096 stack 262144 | -> domain a 65536 262144 64 4096 16 Some(1000000000)\n\
start a B -> start a B\n\
start kill caps| -> start kill caps\n\
turn 1 -> turn 1 1\n\
turn 0\r| -> turn 0 1\n\
\tturn \t 7  2 \r| -> turn 7 2\n\
|# turn 3| |turn 4294967295 1000000000|| -> turn 4294967295 1000000000\n\
round 1 1 -> round 1 1\n\
round 1000 1000000| -> round 1000 1000000\n\
round 1000000 1000 -> round 1000000 1000\n\
domain a|domain b steps 9|# both|start b C\r|round 2 3|turn 1 100 -> domain a 65536 256 64 16 16 None domain b 65536 256 64 16 16 Some(9) \
    start b C round 2 3 turn 1 100\n\
# \x7f| -> 1 BadByte\n\
turn 1\r -> 1 BadByte\n\
turn 1\r\r| -> 1 BadByte\n\
fly \x0b -> 1 BadByte\n\
\x00| -> 1 BadByte\n\
turn 1|# \u{80} -> 2 BadByte\n\
|# a|fly a|turn 01| -> 3 UnknownWord\n\
Turn 1 -> 1 UnknownWord\n\
turn1 -> 1 UnknownWord\n\
domain a heaps 64 -> 1 UnknownWord\n\
domain a stack 2 5 -> 1 UnknownWord\n\
domain a 5 stack 1 -> 1 UnknownWord\n\
domain a.b -> 1 BadName\n\
domain a23456789_123456789-1234567890123 5 -> 1 BadName\n\
start a/b -> 1 BadName\n\
kill a: -> 1 BadName\n\
kill a23456789_123456789-1234567890123 b -> 1 BadName\n\
kill a.b c -> 1 BadName\n\
turn 01 -> 1 BadNumber\n\
turn 00 -> 1 BadNumber\n\
turn 1x -> 1 BadNumber\n\
turn -1 -> 1 BadNumber\n\
turn 4294967296 -> 1 BadNumber\n\
turn 18446744073709551617 -> 1 BadNumber\n\
turn x y z -> 1 BadNumber\n\
turn 1 02 -> 1 BadNumber\n\
turn 1 0 -> 1 BadNumber\n\
turn 1 1000000001 2 -> 1 BadNumber\n\
round 0 1 -> 1 BadNumber\n\
round 1000001 1 -> 1 BadNumber\n\
round 1 0 -> 1 BadNumber\n\
round 1 1000001 -> 1 BadNumber\n\
round 1001 1000000 -> 1 BadNumber\n\
round 1000000 1001 1 -> 1 BadNumber\n\
domain a stack 1 -> 1 BadNumber\n\
domain a stack 262145 -> 1 BadNumber\n\
domain a threads 0 -> 1 BadNumber\n\
domain a threads 4097 -> 1 BadNumber\n\
domain a steps 1000000001 -> 1 BadNumber\n\
domain a steps 00 -> 1 BadNumber\n\
domain a steps 5 heap 16777216 -> domain a 16777216 256 64 16 16 Some(5)\n\
domain a heap 63 -> 1 BadNumber\n\
domain a heap 16777217 -> 1 BadNumber\n\
domain a caps 1000001 -> 1 BadNumber\n\
domain a names 4097 -> 1 BadNumber\n\
domain a caps -1 -> 1 BadNumber\n\
domain a names 00 -> 1 BadNumber\n\
domain a stack stack stack -> 1 BadNumber\n\
turn 1 2 3 -> 1 Extra\n\
round 1 1 x -> 1 Extra\n\
kill a b -> 1 Extra\n\
domain a stack 2 steps 1 stack 3 -> 1 Extra\n\
domain a heap 64 heap -> 1 Extra\n\
domain a caps 1 names 2 caps 3 -> 1 Extra\n\
domain a names 1 names -> 1 Extra\n\
domain -> 1 Missing\n\
domain a stack -> 1 Missing\n\
domain a threads 1 steps -> 1 Missing\n\
domain a caps -> 1 Missing\n\
domain a caps 1 names -> 1 Missing\n\
start -> 1 Missing\n\
start a -> 1 Missing\n\
turn  -> 1 Missing\n\
round -> 1 Missing\n\
round 1 -> 1 Missing\n\
kill -> 1 Missing\n\
start a B c -> start a B c\n\
kill a -> kill a\n\
\tkill \t a23456789_123456789-123456789012 \r| -> kill a23456789_123456789-123456789012\n\
kill kill -> kill kill\n\
domain a heap 64 -> domain a 64 256 64 16 16 None\n\
domain a caps 0 -> domain a 65536 256 0 16 16 None\n\
domain a names 4096 caps 1000000| -> domain a 65536 256 1000000 16 4096 None\n\
domain a stack 2 names 0 -> domain a 65536 2 64 16 0 None\n\
domain a heap 64 stack 3 caps 5 threads 6 names 7 steps 8 -> domain a 64 3 5 6 7 Some(8)\n\
turn 1||kill a|fly -> 4 UnknownWord\n\
domain a|start a B|kill a|domain a names 0|kill b -> domain a 65536 256 64 16 16 None start a B kill a domain a 65536 256 64 16 0 None kill b";
