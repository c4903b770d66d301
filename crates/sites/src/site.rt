// What a built-in site says to a call.
ghost use Rattle.std.specs.Prelude.{◌≡◌, [], ◌∷◌, ◌≤◌, MatchResult};
ghost use Rattle.job.specs.Site as Site;
ghost use Rattle.sites.specs.SiteReply.{site_number, site_reply_of};

// "0 let (1), 1 ift (1), 2 iff (1), 3 signal (0), 4 add (2), 5 less (2), 6 equal (2)", 7 rwait (1).
#[derive(Clone, Copy)]
pub enum BuiltInSite {
    Let,
    Ift,
    Iff,
    Signal,
    Add,
    Less,
    Equal,
    Rwait,
}

// The number of a site that is not a built-in.
#[derive(Clone, Copy)]
pub struct OutsideSite;

impl TryFrom<u32> for BuiltInSite {
    type Error = OutsideSite;

    ghost try_from_gives = { λ number r. MatchResult r (λ site. site_number site ≡ number) (λ _. 8 ≤ number) };

    fn try_from(number: u32) -> Result<BuiltInSite, OutsideSite> {
        match number {
            0 => Ok(BuiltInSite::Let),
            1 => Ok(BuiltInSite::Ift),
            2 => Ok(BuiltInSite::Iff),
            3 => Ok(BuiltInSite::Signal),
            4 => Ok(BuiltInSite::Add),
            5 => Ok(BuiltInSite::Less),
            6 => Ok(BuiltInSite::Equal),
            7 => Ok(BuiltInSite::Rwait),
            _ => Err(OutsideSite),
        }
    }
}

#[derive(Clone, Copy)]
pub enum SiteReply {
    Gives(i32),
    Silent,
    Later(i32),
}

// "gives 0 if ..; else silent"
#[tactic(auto, unfolding(job::specs::Site::zero_if))]
fn zero_if(test: bool) -> SiteReply
    ensures { result ≡ site_reply_of (Site.zero_if test) }
{
    if test {
        return SiteReply::Gives(0);
    }
    SiteReply::Silent
}

// "the sum, or is silent if it leaves signed 32 bits"
#[tactic(auto, unfolding(job::specs::Site::sum_reply, job::specs::Number::fits))]
fn sum(a: i32, b: i32) -> SiteReply
    ensures { result ≡ site_reply_of (Site.sum_reply a b) }
{
    match a.checked_add(b) {
        Some(sum) => SiteReply::Gives(sum),
        None => SiteReply::Silent,
    }
}

// No built-in has more than two parameters.
#[tactic(auto, unfolding(job::specs::Site::builtin, job::specs::Site::truth, job::specs::Site::not_zero, job::specs::Number::equal_z))]
pub fn builtin(site: BuiltInSite, a: i32, b: i32) -> SiteReply
    ensures { result ≡ site_reply_of (Site.builtin (site_number site) (a ∷ b ∷ [])) }
{
    match site {
        BuiltInSite::Let => SiteReply::Gives(a),
        BuiltInSite::Ift => zero_if(a != 0),
        BuiltInSite::Iff => zero_if(a == 0),
        BuiltInSite::Signal => SiteReply::Gives(0),
        BuiltInSite::Add => sum(a, b),
        BuiltInSite::Less => SiteReply::Gives(i32::from(a < b)),
        BuiltInSite::Equal => SiteReply::Gives(i32::from(a == b)),
        BuiltInSite::Rwait => SiteReply::Later(a),
    }
}
