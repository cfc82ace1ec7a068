//! Small circuits with their environments, and golden circuits.

/// A cell table of every kind.
pub(crate) const CELLS: &[u8] = b"cell,kind,inputs,clock,outputs,function,lo,hi,setup,hold,dead
JTL,jtl,a,,q,,2000,3000,,,0
SPL,split,a,,q0 q1,,3000,4000,,,0
MRG,merge,a b,,q,,4000,5000,,,5000
DFF,gate,a,clk,q,01,5000,7000,2000,1000,10000
NOT,gate,a,clk,q,10,6000,8000,2000,1000,10000
AND,gate,a b,clk,q,0001,6000,8000,2000,1000,10000
XOR,gate,a b,clk,q,0110,6000,8000,2000,1000,10000
";

const ONE_INPUT: &[u8] = b"role,port,x,y,z
period,,20000,,
clock,clk,0,,
input,a,4000,6000,
output,y,0,1000,1000
";

const TWO_INPUTS: &[u8] = b"role,port,x,y,z
period,,20000,,
clock,clk,0,,
input,a,4000,6000,
input,b,4000,6000,
output,y,0,1000,1000
";

pub(crate) const REGISTER: (&[u8], &[u8]) = (
    b"module top(input clk, input a, output y);
DFF u1(.a(a), .clk(clk), .q(y));
endmodule
",
    ONE_INPUT,
);

pub(crate) const WIRE: (&[u8], &[u8]) = (
    b"module top(input clk, input a, output y);
JTL j(.a(a), .q(y));
endmodule
",
    ONE_INPUT,
);

pub(crate) const JOINED: (&[u8], &[u8]) = (
    b"module top(input clk, input a, input b, output y);
MRG m(.a(a), .b(b), .q(y));
endmodule
",
    TWO_INPUTS,
);

/// An AND of an input and a register of another. Its nets are `clk`, `a`, `b`, `c1`, `c2`, `m` and `y`.
pub(crate) const REGISTER_AND: (&[u8], &[u8]) = (
    b"module top(input clk, input a, input b, output y);
SPL s(.a(clk), .q0(c1), .q1(c2));
DFF u1(.a(a), .clk(c1), .q(m));
AND u2(.a(m), .b(b), .clk(c2), .q(y));
endmodule
",
    TWO_INPUTS,
);

/// Its nets are `clk`, `a`, `b` and `y`.
pub(crate) const XOR: (&[u8], &[u8]) = (
    b"module top(input clk, input a, input b, output y);
XOR u1(.a(a), .b(b), .clk(clk), .q(y));
endmodule
",
    TWO_INPUTS,
);

/// An AND of an input and the negation of another; a third is not read. Its nets are `clk`, `a`, `b`, `c`, `c1`, `c2`, `m` and `y`.
pub(crate) const THREE_INPUTS: (&[u8], &[u8]) = (
    b"module top(input clk, input a, input b, input c, output y);
SPL s(.a(clk), .q0(c1), .q1(c2));
NOT u1(.a(c), .clk(c1), .q(m));
AND u2(.a(m), .b(a), .clk(c2), .q(y));
endmodule
",
    b"role,port,x,y,z
period,,20000,,
clock,clk,0,,
input,a,4000,6000,
input,b,4000,6000,
input,c,4000,6000,
output,y,0,1000,1000
",
);

/// In the style of a synthesis tool's output.
pub(crate) const NAMED: (&[u8], &[u8]) = (
    b"/* made by a synthesis tool */
`timescale 1ps/1fs
(* top = 1 *)
module top(clk, a, y);
  input clk;
  wire clk;
  input [1:0] a;
  wire [1:0] a;
  output [1:0] y;
  wire [1:0] y;
  (* src = \"top.v:7.3-7.30\" *)
  pass \\p$0 (.c(clk), .i(a), .o(y));
endmodule
module pass(input c, input [1:0] i, output [1:0] o);
  wire \\t.1 , t0;
  assign o = {\\t.1 , t0};
  SPL cs(.a(c), .q0(c0), .q1(c1));
  DFF \\d[0] (.a(i[0]), .clk(c0), .q(m)), \\d[1] (i[1], c1, \\t.1 );
  SPL x(.a(m), .q0(t0), .q1());
endmodule
",
    ONE_INPUT,
);

pub(crate) const TWO_WIRES: (&[u8], &[u8]) = (
    b"module top(input clk, input a, input b, output y, output z);
JTL j(.a(a), .q(y));
JTL k(.a(b), .q(z));
endmodule
",
    b"role,port,x,y,z
period,,20000,,
clock,clk,0,,
input,a,4000,6000,
input,b,4000,6000,
output,y,0,1000,1000
output,z,0,1000,1000
",
);

pub(crate) const EIGHT_WIRES: (&[u8], &[u8]) = (
    b"module top(input clk, input [7:0] a, output [7:0] y);
JTL j0(.a(a[0]), .q(y[0]));
JTL j1(.a(a[1]), .q(y[1]));
JTL j2(.a(a[2]), .q(y[2]));
JTL j3(.a(a[3]), .q(y[3]));
JTL j4(.a(a[4]), .q(y[4]));
JTL j5(.a(a[5]), .q(y[5]));
JTL j6(.a(a[6]), .q(y[6]));
JTL j7(.a(a[7]), .q(y[7]));
endmodule
",
    ONE_INPUT,
);

pub(crate) const NO_INPUTS: (&[u8], &[u8]) = (
    b"module top(input clk);
endmodule
",
    b"role,port,x,y,z
period,,20000,,
clock,clk,0,,
",
);

/// The output is the input.
pub(crate) const PASSED_THROUGH: &[u8] = b"aag 1 1 0 1 0\n2\n2\n";

/// The output is 0.
pub(crate) const CONSTANT: &[u8] = b"aag 1 1 0 1 0\n2\n0\n";

/// The output is the negation of an AND of both negated inputs.
pub(crate) const OR_OF_NEGATIONS: &[u8] = b"aag 3 2 0 1 1\n2\n4\n7\n6 5 3\n";

pub(crate) const ONE_AND: &[u8] = b"aag 3 2 0 1 1\n2\n4\n6\n6 4 2\n";

/// An AND of the negated third input and the first, in the binary form.
pub(crate) const NEGATED_AND: &[u8] = b"aig 4 3 0 1 1\n8\n\x01\x85\x00";

/// Two outputs that are two inputs, each with the name of its bit.
pub(crate) const SYMBOLS: &[u8] =
    b"aag 2 2 0 2 0\n2\n4\n2\n4\ni0 a[0]\ni1 a[1]\no0 y[0]\no1 y[1]\n";

/// The inputs and the outputs are named the other way round.
pub(crate) const SWAPPED: &[u8] = b"aag 2 2 0 2 0\n2\n4\n2\n4\ni0 b\ni1 a\no0 z\no1 y\n";

/// Eight outputs that are eight inputs.
pub(crate) const WIRES: &[u8] =
    b"aag 8 8 0 8 0\n2\n4\n6\n8\n10\n12\n14\n16\n2\n4\n6\n8\n10\n12\n14\n16\n";
