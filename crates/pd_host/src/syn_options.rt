//! The offers of a SYN's options. Options after `eol` aren't looked at; of a repeated one the first counts.
ghost use Rattle.std.specs.Prelude.{◌≡◌};
ghost use Rattle.pd_host.specs.Handshake.{syn_options_of, is_peer_mss_supported};
ghost use Rattle.pd_host.specs.Steps.{with_option};

use pd_seg::SegOption;

/// The least MSS of a peer that is run, in octets.
const MIN_PEER_MSS: u16 = 64;

/// The offers of a SYN's options.
#[derive(Clone, Copy, PartialEq, Eq)]
pub struct SynOptions {
    /// The peer's MSS in octets, if it names one.
    pub mss: Option<u16>,
    /// The peer's shift count, if it scales windows.
    pub count: Option<u8>,
    /// Whether the peer permits SACK.
    pub sack: bool,
}

impl SynOptions {
    /// The offers of these options.
    pub fn of(options: &[SegOption]) -> SynOptions
        ensures { result ≡ syn_options_of options.now }
    {
        let mut syn_options = SynOptions {
            mss: None,
            count: None,
            sack: false,
        };
        for option in options {
            if let SegOption::Eol = option {
                return syn_options;
            }
            syn_options = syn_options.with_option(option);
        }
        syn_options
    }

    /// The offers with one more option.
    fn with_option(self, option: &SegOption) -> SynOptions
        ensures { result ≡ with_option self option.now }
    {
        match option {
            SegOption::Mss(octets) => SynOptions {
                mss: self.mss.or(Some(*octets)),
                ..self
            },
            SegOption::Wscale(count) => SynOptions {
                count: self.count.or(Some(*count)),
                ..self
            },
            SegOption::SackOk => SynOptions { sack: true, ..self },
            _ => self,
        }
    }
}

/// Whether a peer with this MSS is run.
pub fn is_peer_mss_supported(octets: Option<u16>) -> bool
    ensures { result ≡ is_peer_mss_supported octets }
{
    match octets {
        None => true,
        Some(octets) => octets >= MIN_PEER_MSS,
    }
}
