// Expressions and statements that are read by themselves.
ghost use Rattle.std.specs.Prelude.{◌<◌, ◌^◌, length};

use behavior_readings::{read_expression, read_statements};
use lisa_lexer::tokens;
use lisa_tree::DescFault;
use std::alloc::Global;
use std::test::Fail;

// 65 brackets are open at its token 64.
const DEEP: &[u8] =
    b"(((((((((((((((((((((((((((((((((((((((((((((((((((((((((((((((((a)))))))))))))))))))))))))))))))))))))))))))))))))))))))))))))))));";

// Where the expression from a token on ends.
fn expression_end(alloc: Global, bytes: &[u8], from: usize) -> Result<usize, DescFault>
    requires { length bytes.now < 2 ^ 32 }
{
    let tokens = tokens(alloc, bytes)?;
    let (_tree, end) = read_expression(alloc, &tokens, from.min(tokens.len()))?;
    Ok(end)
}

// How many statements there are from a token on, and where they end.
fn statements_end(alloc: Global, bytes: &[u8], from: usize) -> Result<(usize, usize), DescFault>
    requires { length bytes.now < 2 ^ 32 }
{
    let tokens = tokens(alloc, bytes)?;
    let (all, end) = read_statements(alloc, &tokens, from.min(tokens.len()))?;
    Ok((all.len(), end))
}

#[test]
fn expressions_end_at_a_closing_token(rt: HostRuntime) -> Result<(), Fail> {
    let alloc = rt.alloc();
    assert_eq!(rt; expression_end(alloc, b"x = a + b * c; }", 2), Ok(7));
    assert_eq!(rt; expression_end(alloc, b"m[n] = 1;", 2), Ok(3));
    let fault = DescFault::NotADescription { at: 4 };
    assert_eq!(rt; expression_end(alloc, b"a + ;", 0), Err(fault));
    Ok(())
}

#[test]
fn statements_end_at_a_brace(rt: HostRuntime) -> Result<(), Fail> {
    let alloc = rt.alloc();
    assert_eq!(rt; statements_end(alloc, b"{ x = a; y(); } }", 1), Ok((2, 9)));
    assert_eq!(rt; statements_end(alloc, b"}", 0), Ok((0, 0)));
    let fault = DescFault::NotADescription { at: 0 };
    assert_eq!(rt; statements_end(alloc, b"x = a;", 0), Err(fault));
    Ok(())
}

#[test]
fn brackets_are_counted_before_anything_is_read(rt: HostRuntime) -> Result<(), Fail> {
    let alloc = rt.alloc();
    assert_eq!(rt; expression_end(alloc, &DEEP[1..], 0), Ok(129));
    assert_eq!(rt;
        expression_end(alloc, DEEP, 0),
        Err(DescFault::TooDeep { at: 64 })
    );
    assert_eq!(rt;
        statements_end(alloc, DEEP, 0),
        Err(DescFault::TooDeep { at: 64 })
    );
    Ok(())
}
