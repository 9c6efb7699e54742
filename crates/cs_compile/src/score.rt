// What a score's text means in a piece: its plot.
ghost use Rattle.std.specs.Prelude.{◌≡◌, ◌≤◌, length, Ok, Err, IfOk};
ghost use Rattle.cs_base.specs.Limits.{most_score_bytes};
ghost use Rattle.cs_base.specs.declared.fault.Or.TheVariants as or;
ghost use Rattle.cs_base.specs.declared.refusal.Refusal.{Refusal};
ghost use Rattle.cs_compile.specs.Meaning.{score_means};
ghost use Rattle.cs_piece.specs.Setups.{AreOfOneSize};
ghost use Rattle.cs_tempo.specs.Performable.{IsPerformable};

use cs_base::{Excerpt, Head, Or, Refusal};
use cs_score::{read_score, tables_keep_one_size};
use cs_tempo::{Plot, schedule};
use std::alloc::Global;

/// Returns the plot that a text of at most 4,194,304 bytes means in a piece with this head, or its first
/// refusal.
pub fn read_plot(alloc: Global, text: &Excerpt, head: &Head) -> Result<Plot, Or<Refusal>>
    requires { length text.now.bytes ≤ most_score_bytes }
    ensures plot { IfOk result (λ plot. score_means head.now text.now (Ok plot)) }
    ensures performable { IfOk result (IsPerformable head.now) }
    ensures sizes { IfOk result (λ plot. AreOfOneSize plot.events) }
    ensures refused { (r : Refusal) → result ≡ Err (or.Fault r) → score_means head.now text.now (Err r) }
{
    tables_keep_one_size();
    let statements = read_score(alloc, text)?;
    let plot = schedule(alloc, &statements, head)?;
    Ok(plot)
}
