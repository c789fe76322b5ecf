// RULES 11.2 and 3.4. What is fixed when a room is opened and both rounds go by.
ghost use Rattle.std.specs.Prelude.{◌≡◌};
ghost use Rattle.engines.specs.Settings.{loss_accepted, is_lossy};

// A capture round reads the listen timeout, a flood the repeats. The round's slots may be left open for a flood, which
// then reckons them from the diameter. C is told slots and flag again as it gave them, whichever is read: so two fields
// stand where an Option would lose the slots beside a flag that says no.
#[derive(Clone, Copy)]
pub struct Settings {
    pub loss_rate: f64,
    pub abort_probability: f64,
    pub seed: u64,
    pub listen_timeout: u64,
    pub flood_repeats: u32,
    pub round_slots: u64,
    pub slots_given: bool,
}

// Refusal 4 is for every other loss, NaN among them.
#[tactic(auto, unfolding(crate::specs::Settings::loss_accepted))]
pub fn loss_accepted(loss: f64) -> bool
    ensures { result ≡ loss_accepted loss }
{
    0.0 <= loss && loss < 1.0
}

// Only a loss above 0 draws words.
#[tactic(auto, unfolding(crate::specs::Settings::is_lossy))]
pub fn is_lossy(loss: f64) -> bool
    ensures { result ≡ is_lossy loss }
{
    loss > 0.0
}
