// Powers of two.
ghost use Rattle.std.specs.Prelude.{◌≡◌, ◌<◌, IfSome};
ghost use Rattle.verilog_size_checks.specs.Sought.{exponent as exponent_of_depth};

/// The number of which 2 to it is the depth.
pub fn exponent(depth: u32) -> Option<u32>
    ensures value { result ≡ exponent_of_depth depth }
    ensures small { IfSome result (λ k. k < 32) }
{
    'powers: for k in 0..32u32 {
        if 1u64 << k == u64::from(depth) {
            return Some(k);
        }
    }
    None
}
