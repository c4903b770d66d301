// What a call hands back.
ghost use Rattle.std.specs.Prelude.{◌≡◌};
ghost use Rattle.acts.specs.Acting.{plain};

use model::reply::{Reply, Report};

// A reply without values.
pub fn plain(reply: Reply) -> Report
    ensures { result ≡ plain reply }
{
    Report {
        reply,
        values: [0; 4],
    }
}
