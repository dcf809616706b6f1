ghost use Rattle.std.specs.Prelude.{◌≡◌};
ghost use Rattle.xp_step.specs.InForce.{force_of};

use xp_subs::Subs;

/// The subscriptions of an exchange.
#[derive(Drop)]
pub struct SubsInForce {
    /// Those with which it was opened.
    pub opening: Subs,
    /// Those that the last reload brought, if there was one.
    pub reloaded: Option<Subs>,
}

impl SubsInForce {
    /// Returns those in force.
    pub fn in_force(&self) -> &Subs
        ensures { result.now ≡ force_of self.now }
    {
        match &self.reloaded {
            None => &self.opening,
            Some(subs) => subs,
        }
    }
}
