// "Open handles differ."
ghost use Rattle.std.specs.Prelude.{◌≡◌, not, ℕ, eqb};
ghost use Rattle.job.specs.Test.{for_all, distinct};

// Is the number none of those before it? All of them are compared, so that nothing branches.
fn is_new(handle: u32, before: &[u32]) -> bool
    ensures { result ≡ for_all (λ (h : ℕ). not (eqb h handle)) before.now }
{
    before.iter().fold(true, |ok, h| ok & (*h != handle))
}

// Do the numbers differ?
pub(crate) fn all_differ(list: &[u32]) -> bool
    ensures { result ≡ distinct list.now }
{
    let mut ok = true;
    for (i, handle) in list.iter().enumerate() {
        ok &= is_new(*handle, &list[..i]);
    }
    ok
}
