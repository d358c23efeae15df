//! Descriptions of worked networks that tests of several crates read.

/// A process that copies each item.
pub const COPY: &str = "process copy(in i; out o) { while 1 { read i x; write o x; } }
network { source s; sink z cap 1; c = copy(s; z); }
";

/// Two processes, of which the first writes its channels in an order in which the second does not read them.
pub const TWO: &str = "process p(out a, b) { write a 1; write a 2; write b 3; }
process q(in a, b; out z) {
  read b x; read a y; read a w; write z ((100 * x) + ((10 * y) + w));
}
network {
  channel a cap 1; channel b cap 1; sink z cap 1;
  p = p(; a, b); q = q(a, b; z);
}
";
