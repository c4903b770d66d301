// The sites' parameter counts.
ghost use Rattle.std.specs.Prelude.{◌≡◌};
ghost use Rattle.job.specs.Site.{site_takes};

use crate::bounds::PARAMETER_LIMIT;

// "Each built-in site has a fixed parameter count": let, ift, iff, signal, add, less, equal, rwait.
const BUILTIN_COUNTS: [u32; 8] = [1, 1, 1, 0, 2, 2, 2, 1];

// The built-in sites have the numbers below this one.
const BUILTIN_LIMIT: u32 = 8;

// May a call with so many parameters name this site?
pub fn takes(site: u32, count: u32) -> bool
    ensures { result ≡ site_takes site count }
{
    match site {
        0..BUILTIN_LIMIT => count == BUILTIN_COUNTS[site as usize],
        16..=1023 => count <= PARAMETER_LIMIT,
        _ => false,
    }
}
