//! Sample descriptions.

/// A register that counts up from 5.
pub const COUNTER: &[u8] = b"
RESOURCE { REGISTER uint8 n; }
OPERATION reset { BEHAVIOR { n = 5; } }
OPERATION main { BEHAVIOR { n = n + 1; } }
";

/// Stalls and flushes by pins and by a stage.
pub const PINS: &[u8] = b"
RESOURCE {
  REGISTER uint4 t;
  REGISTER uint4 last;
  PIN uint1 hold;
  PIN uint1 kill;
  PIN uint1 irq;
  PIPELINE p = { A; B; C };
  PIPELINE_REGISTER IN p { uint4 v; };
}
OPERATION main {
  DECLARE { INSTANCE a; }
  BEHAVIOR {
    if (hold) p.B.stall();
    if (kill) p.B.flush();
    if (irq) {
      p.A.flush();
      p.B.flush();
      p.C.flush();
      last = PIPELINE_REGISTER(p, B/C).v;
      t = 8;
    }
  }
  ACTIVATION { a }
}
OPERATION a IN p.A {
  DECLARE { INSTANCE b; }
  BEHAVIOR { t = t + 1; OUT.v = t; }
  ACTIVATION { b }
}
OPERATION b IN p.B { DECLARE { INSTANCE c; } ACTIVATION { c } }
OPERATION c IN p.C { BEHAVIOR { last = IN.v; if (IN.v == 1) p.B.stall(); } }
";

/// An operation of the last stage that is activated from the first one.
pub const FAR: &[u8] = b"
RESOURCE { REGISTER uint4 pc; PIPELINE p = { D; X; W }; }
OPERATION main { DECLARE { INSTANCE root; } ACTIVATION { root } }
OPERATION root IN p.D {
  DECLARE { GROUP g = { add }; }
  CODING { pc == g }
  ACTIVATION { g }
}
OPERATION add IN p.W { CODING { 0bx[4] } SYNTAX { \"ADD\" } }
";

/// Two branches that activate the same operations.
pub const BRANCHES: &[u8] = b"
RESOURCE { REGISTER uint4 pc; PIPELINE p = { A; B }; }
OPERATION x IN p.A { }
OPERATION main {
  DECLARE { INSTANCE x, y; }
  ACTIVATION { if (pc) { x, y } else { x, y } }
}
OPERATION y { }
";

/// A pipeline of three stages with three instructions.
pub const PROCESSOR: &[u8] = b"
RESOURCE {
  PROGRAM_COUNTER uint4 pc;
  REGISTER uint8 R[2];
  PROGRAM_MEMORY uint8 prog[16];
  PIPELINE pipe = { FE; DC; EX };
  PIPELINE_REGISTER IN pipe { uint8 ir; };
}
OPERATION main { DECLARE { INSTANCE fetch; } ACTIVATION { fetch } }
OPERATION fetch IN pipe.FE {
  DECLARE { INSTANCE decode; }
  BEHAVIOR { OUT.ir = prog[pc]; pc = pc + 1; }
  ACTIVATION { decode }
}
OPERATION decode IN pipe.DC {
  DECLARE { GROUP instr = { addi || nop || br }; }
  CODING { IN.ir == instr }
  ACTIVATION { instr }
}
OPERATION addi IN pipe.EX {
  DECLARE { GROUP dst = { reg }; LABEL imm; }
  CODING { 0b01 dst imm=0bx[5] }
  SYNTAX { \"ADDI\" dst ~ \",\" imm=#U }
  BEHAVIOR { dst = dst + imm; }
}
OPERATION reg {
  DECLARE { LABEL index; }
  CODING { index=0bx[1] }
  SYNTAX { \"R\" ~ index=#U }
  EXPRESSION { R[index] }
}
OPERATION nop IN pipe.EX { CODING { 0b00 0bx[6] } SYNTAX { \"NOP\" } }
OPERATION br IN pipe.EX {
  DECLARE { LABEL off; }
  CODING { 0b10 off=0bx[6] }
  SYNTAX { \"BR\" off=#S }
  BEHAVIOR { pc = pc + (uint4)off; pipe.DC.flush(); pipe.FE.flush(); }
}
";

/// Two instructions of four bits, which show their numbers in decimal and in hexadecimal behind the same letter.
pub const PAIR: &[u8] = b"
RESOURCE { REGISTER uint4 ir; }
OPERATION main { }
OPERATION decode { DECLARE { GROUP i = { p || q }; } CODING { ir == i } }
OPERATION p { DECLARE { LABEL n; } CODING { 0b0 n=0bx[3] } SYNTAX { \"R\" ~ n=#U } }
OPERATION q { DECLARE { LABEL m; } CODING { 0b1 m=0bx[3] } SYNTAX { \"R\" ~ m=#X } }
";

/// Instructions of five bits, two of which have free bits, and an alias.
pub const FREE: &[u8] = b"
RESOURCE { REGISTER uint5 w; }
OPERATION main { }
OPERATION decode { DECLARE { GROUP i = { put || skip || one }; } CODING { w == i } }
OPERATION put {
  DECLARE { LABEL a, b; }
  CODING { 0b1 a=0bx[2] 0bx[1] b=0bx[1] }
  SYNTAX { \"PUT\" a=#U ~ \",\" b=#U }
}
OPERATION skip { CODING { 0b01 0bx[3] } SYNTAX { \"SKIP\" } }
ALIAS OPERATION one { DECLARE { LABEL a; } CODING { 0b1 a=0bx[2] 0b01 } SYNTAX { \"ONE\" a=#U } }
";

/// Instructions of six bits with numbers of each sort, which one of them shows in another order than it codes them.
pub const SIGNED: &[u8] = b"
RESOURCE { REGISTER uint6 w; }
OPERATION main { }
OPERATION decode { DECLARE { GROUP i = { far || near }; } CODING { w == i } }
OPERATION far {
  DECLARE { LABEL to, mark; }
  CODING { 0b0 to=0bx[3] mark=0bx[2] }
  SYNTAX { \"B\" ~ mark=#X ~ \",\" to=#S }
}
OPERATION near {
  DECLARE { LABEL n, m; }
  CODING { 0b11 n=0bx[1] 0bx[1] m=0bx[2] }
  SYNTAX { \"S\" n=#S m=#U }
}
";

/// Instructions of six bits, one of which has a group below a group, and activates what is no child of its coding.
pub const NESTED: &[u8] = b"
RESOURCE { REGISTER uint6 w; }
OPERATION main { DECLARE { INSTANCE decode; } ACTIVATION { decode } }
OPERATION decode { DECLARE { GROUP i = { load || halt }; } CODING { w == i } ACTIVATION { i } }
OPERATION load {
  DECLARE { GROUP from = { value || cell }; INSTANCE log; LABEL to; }
  CODING { 0b1 to=0bx[1] from }
  SYNTAX { \"LD\" \"R\" ~ to=#U ~ \",\" from }
  ACTIVATION { from, log }
}
OPERATION value { DECLARE { LABEL n; } CODING { 0b0 n=0bx[3] } SYNTAX { n=#U } }
OPERATION cell {
  DECLARE { GROUP base = { low || high }; LABEL k; }
  CODING { 0b1 base k=0bx[1] }
  SYNTAX { \"[\" ~ base ~ \"+\" ~ k=#U ~ \"]\" }
  ACTIVATION { base }
}
OPERATION low { CODING { 0b0 0bx[1] } SYNTAX { \"L\" } }
OPERATION high { DECLARE { LABEL m; } CODING { 0b1 m=0bx[1] } SYNTAX { \"H\" ~ m=#X } }
OPERATION log { }
OPERATION halt { DECLARE { INSTANCE why = reason; } CODING { 0b00 why } SYNTAX { \"HALT\" why } }
OPERATION reason { DECLARE { LABEL n; } CODING { 0bx[2] n=0bx[2] } SYNTAX { n=#U } }
";

/// Instructions of five bits with two children of one sort, which they show in another order than they code them.
pub const MOVES: &[u8] = b"
RESOURCE { REGISTER uint5 w; }
OPERATION main { }
OPERATION decode { DECLARE { GROUP i = { move }; } CODING { w == i } }
OPERATION move {
  DECLARE { GROUP from, to = { reg || sum }; }
  CODING { 0b1 from to }
  SYNTAX { \"MV\" to ~ \",\" from }
}
OPERATION reg { DECLARE { LABEL n; } CODING { 0b0 n=0bx[1] } SYNTAX { \"R\" ~ n=#U } }
OPERATION sum { CODING { 0b1 0bx[1] } SYNTAX { \"A\" } }
";

/// One instruction of 64 bits, which are those of two numbers.
pub const WIDE: &[u8] = b"
RESOURCE { REGISTER uint64 w; }
OPERATION main { }
OPERATION decode { DECLARE { GROUP i = { wide }; } CODING { w == i } }
OPERATION wide {
  DECLARE { LABEL a, b; }
  CODING { a=0bx[63] b=0bx[1] }
  SYNTAX { \"W\" a=#X b=#S }
}
";

/// One instruction of 64 bits, which are those of one number.
pub const WHOLE: &[u8] = b"
RESOURCE { REGISTER uint64 w; }
OPERATION main { }
OPERATION decode { DECLARE { GROUP i = { whole }; } CODING { w == i } }
OPERATION whole { DECLARE { LABEL a; } CODING { a=0bx[64] } SYNTAX { \"W\" ~ a=#S } }
";
