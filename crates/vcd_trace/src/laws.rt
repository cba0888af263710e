// Bytes spell one dump at most, and what is written of a run is read again.
ghost use Rattle.std.specs.Prelude.{◌≡◌, ◌≤◌, ℕ, List, [], length};
ghost use Rattle.lisa_engine.specs.State.{State};
ghost use Rattle.lisa_engine.specs.Text.{trace_text};
ghost use Rattle.lisa_engine.specs.declared.parts.Item.{Item};
ghost use Rattle.vcd_trace.specs.VcdText.{vcd_text};
ghost use Rattle.vcd_trace.specs.Written.{Dump};
ghost use Rattle.vcd_trace.specs.VcdFaults.{Spells};
ghost use Rattle.vcd_trace.specs.Runs.{IsDumpable};
ghost use Rattle.vcd_trace.specs.Traces.{dump_trace, run_dump};

/// Bytes spell one dump at most. A law: the function does nothing.
pub fn dumps_are_unique()
    ensures { (bytes : List ℕ) (d e : Dump) → Spells bytes d → Spells bytes e → d ≡ e }
{}

/// The dump that is written of a run spells the items and the values of that run, and so no other dump (`dumps_are_unique`).
pub fn runs_are_read_again()
    ensures { (items : List Item) (values : ℕ → List ℕ) (n : ℕ) → IsDumpable items values n → Spells (vcd_text items values n) (run_dump items values n) }
{}

/// The trace of that dump is the trace of the run, without the lines of cells.
pub fn traces_are_kept()
    ensures { (items : List Item) (state : ℕ → State) (n : ℕ) → ((k : ℕ) → k ≤ n → length (state k).items ≡ length items)
        → dump_trace (run_dump items (λ k. (state k).items) n) ≡ trace_text items [] state n }
{}
