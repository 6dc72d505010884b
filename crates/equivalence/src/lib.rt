// Demand 3, stated in specs/Demand3.antt and specs/Calls.antt and proved in proofs/; and a function that runs both
// sides of a log, so that the claim can be watched.
#![tactic(auto)]

ghost use Rattle.std.specs.Prelude.{◌≡◌};
ghost use Rattle.equivalence.specs.Demand3.{Start};
ghost use Rattle.equivalence.specs.Calls.{lent};
ghost use Rattle.equivalence.specs.Both.{Ran, BothAgree};

use engine::{feed_words, feed_writes};
use packer::pack;
use state::{Engine, ListAnswer};
use stream::OutputAnswer;

// What the packer answered, and both ends: the records that C is answered with, which the claim names (specs/Both.antt).
#[derive(Clone, Copy)]
pub struct BothEnds {
    pub packed: OutputAnswer,
    pub writes: ListAnswer,
    pub words: ListAnswer,
}

// No item was fed.
fn none_fed(engine: Engine) -> ListAnswer
    ensures { result ≡ record { number = 0; place = 0; taken = 0; engine = engine } }
{
    ListAnswer {
        number: 0,
        place: 0,
        taken: 0,
        engine,
    }
}

// Packs a log into `output` and runs both sides, each in one call on an engine of its own: the port writes with the
// first two buffers, the packed words with the second two. Where the log is accepted, the engine is sound with no command
// pending, and the buffers are long enough and hold the same, nothing is refused and both ends are equal.
pub fn run_both(
    e: Engine,
    log: &[u32],
    output: &mut [u32],
    vertices: &mut [i32],
    polygons: &mut [u32],
    vertices2: &mut [i32],
    polygons2: &mut [u32],
) -> BothEnds
    ensures ran { Ran log.now result output.old output.new
        (lent e vertices.old polygons.old)
        (lent result.writes.engine vertices.new polygons.new)
        (lent e vertices2.old polygons2.old)
        (lent result.words.engine vertices2.new polygons2.new) }
    ensures both_agree { result.packed.number ≡ 0 → Start e vertices.old polygons.old
        → vertices.old ≡ vertices2.old → polygons.old ≡ polygons2.old
        → BothAgree log.now result
        (lent result.writes.engine vertices.new polygons.new)
        (lent result.words.engine vertices2.new polygons2.new) }
{
    let outcome = pack(log, output);
    let packed = OutputAnswer::from(outcome);
    let Ok(length) = outcome else {
        return BothEnds {
            packed,
            writes: none_fed(e),
            words: none_fed(e),
        };
    };
    let writes = feed_writes(e, log, vertices, polygons);
    let words = feed_words(e, &output[..length as usize], vertices2, polygons2);
    BothEnds {
        packed,
        writes,
        words,
    }
}
