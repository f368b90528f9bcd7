// What is proved of lists of blocks, where no call of the planner itself says it.
ghost use Rattle.std.specs.Prelude.{List, ℤ};
ghost use Rattle.motion.specs.declared.blocks.Block.{Block};
ghost use Rattle.motion.specs.Figures.{FiguresBounded};
ghost use Rattle.motion.specs.Boxes.{ReachIsBox, SpanIsSum};
ghost use Rattle.motion.specs.ByParts.{ByParts};
ghost use Rattle.motion.specs.Laid.{Entry, Edits};
ghost use Rattle.motion.specs.Worked.{Worked};

// The figures of a block whose move is in range.
pub fn figures_bounded()
    ensures { FiguresBounded }
{}

// The reach of blocks is the box of their targets.
pub fn reach_is_box()
    ensures { ReachIsBox }
{}

// The span of blocks is the sum of their lengths, as far as 32 bits go.
#[tactic(auto, using(crate::proofs::Boxing::span_is_sum))]
pub fn span_is_sum()
    ensures { SpanIsSum }
{}

// Speeds and starts come from the summaries of ranges.
pub fn passes_by_parts()
    ensures { (blocks : List Block) → ByParts blocks }
{}

// An edit of the moves changes one block, and the one after it begins again.
#[tactic(auto, using(crate::proofs::Laying::edits))]
pub fn edits_by_parts()
    ensures { (start : List ℤ) (entries : List Entry) → Edits start entries }
{}

// A plan of three blocks by numbers.
#[tactic(auto, unfolding(crate::specs::Roots::root, kinds::specs::Balance::fewest))]
pub fn worked_examples()
    ensures { Worked }
{}
