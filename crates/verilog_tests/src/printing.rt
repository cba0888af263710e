// The text of modules.
ghost use Rattle.std.specs.Prelude.{IfOk};
ghost use Rattle.verilog_text.specs.Trees.{module_tree};
ghost use Rattle.verilog_text.specs.Faults.{VAccepts};

use std::alloc::Global;
use std::test::Fail;
use verilog_reader::read_module;
use verilog_text::{Module, VerilogFault, print_module};

// The module that a text of at most 10,000 bytes spells.
fn read(alloc: Global, text: &[u8]) -> Result<Module, VerilogFault>
    ensures { IfOk result (λ m. VAccepts text.now (module_tree m)) }
{
    if text.len() > 10_000 {
        return Err(VerilogFault::NoMemory);
    }
    read_module(alloc, text)
}

const WRITTEN: &[u8] = b"module t(input c,input p,input[3:0]q);
reg[7:0]r;reg[7:0]m[0:3];wire w=((r+8'd1)*8'd2)>(r+(8'h1*8'd2));
wire[7:0]v=(p?r:q)?{3{p}}:{r[7:4],q[0]};
initial r=8'b1_0; always@(posedge c)begin if(!(~p))begin m[r[1:0]]<=m[2'd0]-(r-8'd1);end else if(p&&q)r<=~(r);end endmodule";

// Names are escaped, ranges are written, and parentheses stand only where they are needed.
const PRINTED: &[u8] = b"module \\t ( input \\c , input [ 0 : 0 ] \\p , input [ 3 : 0 ] \\q ) ;
reg [ 7 : 0 ] \\r ;
reg [ 7 : 0 ] \\m [ 0 : 3 ] ;
wire [ 0 : 0 ] \\w = ( \\r + 8'd1 ) * 8'd2 > \\r + 8'd1 * 8'd2 ;
wire [ 7 : 0 ] \\v = ( \\p ? \\r : \\q ) ? { 3 { \\p } } : { \\r [ 7 : 4 ] , \\q [ 0 : 0 ] } ;
initial begin
\\r = 8'd2 ;
end
always @ ( posedge \\c ) begin
if ( ! ( ~ \\p ) ) begin
\\m [ \\r [ 1 : 0 ] ] <= \\m [ 2'd0 ] - ( \\r - 8'd1 ) ;
end
else begin
if ( \\p && \\q ) begin
\\r <= ~ \\r ;
end
end
end
endmodule ";

#[test]
fn a_module_has_its_text(rt: HostRuntime) -> Result<(), Fail> {
    let alloc = rt.alloc();
    for text in [WRITTEN, PRINTED] {
        let module = read(alloc, text)?;
        assert_eq!(rt; print_module(alloc, &module)?.as_slice(), PRINTED);
    }
    Ok(())
}
