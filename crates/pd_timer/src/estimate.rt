//! Estimates of the round-trip time.
ghost use Rattle.std.specs.Prelude.{◌≡◌, ◌<◌, ◌^◌};
ghost use Rattle.pd_timer.specs.Rto.{IsEstimate, first_estimate, next_estimate, timeout_of, replacing_granularity};

/// SRTT and RTTVAR, the smoothed round-trip time and its variation, in microseconds (RFC 6298, section 2).
#[derive(Clone, Copy)]
pub struct Estimate {
    /// SRTT, the smoothed round-trip time, in microseconds below 2^62 (RFC 6298, section 2).
    pub srtt: u64,
    /// RTTVAR, the round-trip time variation, in microseconds below 2^62 (RFC 6298, section 2).
    pub rttvar: u64,
}

/// How RTO comes from what was measured, in microseconds (RFC 6298, section 2).
#[derive(Clone, Copy)]
pub struct Timeout {
    /// SRTT and RTTVAR.
    pub estimate: Estimate,
    /// G, the clock's granularity, where it stands in the place of a smaller 4 * RTTVAR.
    pub granularity_us: Option<u64>,
    /// SRTT + max(G, 4 * RTTVAR), before it is held within its bounds: below 2^65.
    pub computed_us: u128,
    /// The same within its bounds.
    pub bounded_us: u64,
}

impl Estimate {
    /// The estimate after the first measurement, in microseconds (RFC 6298, section 2.2).
    pub fn from_first_sample(time: u64) -> Estimate
        requires { time < 2 ^ 62 }
        ensures value { result ≡ first_estimate time }
        ensures small { IsEstimate result }
    {
        Estimate {
            srtt: time,
            rttvar: time / 2,
        }
    }

    /// The estimate after one more measurement, in microseconds (RFC 6298, section 2.3).
    pub fn with_next_sample(self, time: u64) -> Estimate
        requires small { IsEstimate self }
        requires time { time < 2 ^ 62 }
        ensures value { result ≡ next_estimate time self }
        ensures small { IsEstimate result }
    {
        let rttvar = (3 * self.rttvar + self.srtt.abs_diff(time)) / 4;
        // Four times a number below 2^62 fits into 64 bits, eight times doesn't.
        let srtt = (7 * u128::from(self.srtt) + u128::from(time)) / 8;
        Estimate {
            srtt: srtt as u64,
            rttvar,
        }
    }

    /// The timeout that the estimate gives with a clock of this granularity, in microseconds, before it is held
    /// within its bounds (RFC 6298, sections 2.2 and 2.3).
    pub fn rto_before_clamp(self, granularity_us: u64) -> u128
        requires { IsEstimate self }
        ensures { result ≡ timeout_of granularity_us self }
    {
        u128::from(self.srtt) + u128::from(granularity_us.max(4 * self.rttvar))
    }

    /// The clock's granularity, in microseconds, where it stands in the place of a smaller 4 * RTTVAR.
    pub fn granularity_if_above_variation(self, granularity_us: u64) -> Option<u64>
        requires { IsEstimate self }
        ensures { result ≡ replacing_granularity granularity_us self }
    {
        if 4 * self.rttvar < granularity_us {
            Some(granularity_us)
        } else {
            None
        }
    }
}
