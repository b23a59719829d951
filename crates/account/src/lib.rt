// A receiver's account: three energy sums, to which a source's shares are added and from which they are taken off.
// What each function gives is a definition of specs/Account.antt.
#![tactic(auto)]

ghost use Rattle.std.specs.Prelude.{◌≡◌, true, leb, ◌+◌};
ghost use Rattle.level.specs.Level.{top};
ghost use Rattle.account.specs.Account.{sound, plus_of, minus_of, covers, room};

use road::Shares;

// The most that a sum may be.
const TOP: u64 = 512_000_000_000_000_000;

// Three energy sums, by default those before any share.
// By hand beside `road::Shares`, which has the same fields: a share and a sum are not to be taken for each other.
#[derive(Clone, Copy, Default)]
pub struct Account {
    pub day: u64,
    pub evening: u64,
    pub night: u64,
}

// Whether two numbers add up to at most TOP.
fn fits(x: u64, y: u64) -> bool
    ensures { result ≡ leb (x + y) top }
{
    x.saturating_add(y) <= TOP
}

impl Account {
    // Whether no sum is above TOP.
    pub fn sound(self) -> bool
        ensures { result ≡ sound self }
    {
        self.day <= TOP && self.evening <= TOP && self.night <= TOP
    }

    // Whether the shares lift no sum above TOP.
    pub fn room(self, s: Shares) -> bool
        ensures { result ≡ room self s }
    {
        fits(self.day, s.day) && fits(self.evening, s.evening) && fits(self.night, s.night)
    }

    // Whether no share is above its sum.
    pub fn covers(self, s: Shares) -> bool
        ensures { result ≡ covers self s }
    {
        s.day <= self.day && s.evening <= self.evening && s.night <= self.night
    }

    // The account with the shares added.
    pub fn plus(self, s: Shares) -> Account
        requires { room self s ≡ true }
        ensures { result ≡ plus_of self s }
    {
        Account {
            day: self.day + s.day,
            evening: self.evening + s.evening,
            night: self.night + s.night,
        }
    }

    // The account with the shares taken off.
    pub fn minus(self, s: Shares) -> Account
        requires { covers self s ≡ true }
        ensures { result ≡ minus_of self s }
    {
        Account {
            day: self.day - s.day,
            evening: self.evening - s.evening,
            night: self.night - s.night,
        }
    }
}
