// RULES 7.6. Ported from metrics.rs: what a room counts beside its positions' counts, and the two ratios.
ghost use Rattle.std.specs.Prelude.{◌≡◌};
ghost use Rattle.engines.specs.Metrics.{no_metrics, ratio_of, link_pdr_of, flood_coverage_of, with_frames};

// All counts add in 64 bits.
#[derive(Clone, Copy)]
pub struct MetricsCollector {
    pub nacks_sent: u64,
    pub piggybacks_sent: u64,
    pub ce_timeouts: u64,
    pub rx_attempts: u64,
    pub rx_success: u64,
    pub flood_rounds: u64,
    pub flood_nodes_total: u64,
    pub flood_nodes_covered: u64,
}

// None where there is nothing to divide by.
#[tactic(auto, unfolding(crate::specs::Metrics::ratio_of))]
fn quotient(part: u64, whole: u64) -> Option<f64>
    ensures { result ≡ ratio_of part whole }
{
    if whole == 0 {
        return None;
    }
    let p = std::num::nearest_u64_to_f64(part);
    let w = std::num::nearest_u64_to_f64(whole);
    Some(p / w)
}

impl MetricsCollector {
    pub fn new() -> MetricsCollector
        ensures { result ≡ no_metrics }
    {
        MetricsCollector {
            nacks_sent: 0,
            piggybacks_sent: 0,
            ce_timeouts: 0,
            rx_attempts: 0,
            rx_success: 0,
            flood_rounds: 0,
            flood_nodes_total: 0,
            flood_nodes_covered: 0,
        }
    }

    // Frames tried and received, added to those counted before.
    #[tactic(auto, unfolding(crate::specs::Metrics::with_frames))]
    pub fn count_frames(self, attempts: u64, success: u64) -> MetricsCollector
        ensures { result ≡ with_frames attempts success self }
    {
        MetricsCollector {
            rx_attempts: self.rx_attempts.wrapping_add(attempts),
            rx_success: self.rx_success.wrapping_add(success),
            ..self
        }
    }

    // Frames received of the frames that could have been.
    #[tactic(auto, unfolding(crate::specs::Metrics::link_pdr_of))]
    pub fn link_pdr(self) -> Option<f64>
        ensures { result ≡ link_pdr_of self }
    {
        quotient(self.rx_success, self.rx_attempts)
    }

    // Positions that held the flooded payload at the end, of all positions, over all floods.
    #[tactic(auto, unfolding(crate::specs::Metrics::flood_coverage_of))]
    pub fn flood_coverage(self) -> Option<f64>
        ensures { result ≡ flood_coverage_of self }
    {
        quotient(self.flood_nodes_covered, self.flood_nodes_total)
    }
}
