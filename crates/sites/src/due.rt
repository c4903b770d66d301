// When a call of rwait falls due.
ghost use Rattle.std.specs.Prelude.{◌≡◌};
ghost use Rattle.job.specs.Site as Site;
ghost use Rattle.sites.specs.DueTime.{due_time_from};

use record::layout::LAST_TIME;

// "The call falls due at the present time plus t. With a sum above 2147483647 the call never falls due ..; negative t is silent."
#[tactic(auto, unfolding(job::specs::Site::due_time))]
pub fn due_time(clock: u32, t: i32) -> Option<u32>
    ensures { result ≡ due_time_from (Site.due_time clock t) }
{
    let t = u32::try_from(t).ok()?;
    let due = clock.checked_add(t)?;
    (due <= LAST_TIME).then_some(due)
}
