//! Laws of nodes that serve.

ghost use Rattle.serving.specs.AttachedNames.{AttachesItsNames};
ghost use Rattle.serving.specs.Since.{ServesStepByStep};

use node_worlds::lives::steps_are_prefixed;
use site_model::site::Site;

/// At each moment since its start, whatever a crash leaves, the journal, the answers and the posts of a node that serves are those of a
/// prefix of the steps of all its lines and turns, one after the other, also where the last was cut off.
pub fn serves_step_by_step<S: Site>()
    ensures { ServesStepByStep S.told }
{
    steps_are_prefixed::<S>();
}

/// The machine of a node that serves is attached once, by the names of the journal and the address that are to be served and by no others,
/// or not at all where its files or its listener couldn't be opened.
pub fn attaches_its_names<S: Site>()
    ensures { AttachesItsNames S.told }
{}
