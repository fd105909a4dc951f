//! The rules by which the sender puts packets out, in words with the RFC, and by their names.
ghost use Rattle.std.specs.Prelude.{◌≡◌};
ghost use Rattle.pd_explain.specs.SendRules.{send_rule_name, send_rule_words};

use pd_seg::SendRule;

/// A rule in words, with the RFC and the section that it comes from.
pub fn send_rule_words(rule: SendRule) -> &'static str
    ensures { result.now ≡ send_rule_words rule }
{
    match rule {
        SendRule::SynAck => "SYN/ACK (RFC 9293, section 3.10.7.2)",
        SendRule::SynAckAgain => "SYN/ACK at an expiry (RFC 6298, section 5.4)",
        SendRule::Ack => "ACK (RFC 9293, section 3.10.7.4)",
        SendRule::Rst => "RST (RFC 9293, section 3.10.7.4)",
        SendRule::NewData => "new data (RFC 9293, section 3.8.6.2.1)",
        SendRule::Expiry => "first segment at an expiry (RFC 6298, section 5.4)",
        SendRule::AfterExpiry => "old data after an expiry (RFC 6298, section 5.4)",
        SendRule::LimitedTransmit => "limited transmit (RFC 3042)",
        SendRule::SackLimitedTransmit => "limited transmit (RFC 6675, section 5, step 3)",
        SendRule::FastRetransmit => "fast retransmit (RFC 5681, section 3.2, step 3)",
        SendRule::SackFastRetransmit => "fast retransmit (RFC 6675, section 5, step 4.3)",
        SendRule::NextSegLost => "lost data (RFC 6675, section 4, NextSeg, rule 1)",
        SendRule::NextSegNew => "new data (RFC 6675, section 4, NextSeg, rule 2)",
        SendRule::NextSegHole => "data below SACKed data (RFC 6675, section 4, NextSeg, rule 3)",
        SendRule::NextSegRescue => "rescue (RFC 6675, section 4, NextSeg, rule 4)",
    }
}

/// A rule's name, which stays the same in all that is written of it: its RFC, and its words there.
pub fn send_rule_name(rule: SendRule) -> &'static str
    ensures { result.now ≡ send_rule_name rule }
{
    match rule {
        SendRule::SynAck => "rfc9293.syn-ack",
        SendRule::SynAckAgain => "rfc6298.syn-ack-again",
        SendRule::Ack => "rfc9293.ack",
        SendRule::Rst => "rfc9293.rst",
        SendRule::NewData => "rfc9293.new-data",
        SendRule::Expiry => "rfc6298.expiry",
        SendRule::AfterExpiry => "rfc6298.after-expiry",
        SendRule::LimitedTransmit => "rfc3042.limited-transmit",
        SendRule::SackLimitedTransmit => "rfc6675.limited-transmit",
        SendRule::FastRetransmit => "rfc5681.fast-retransmit",
        SendRule::SackFastRetransmit => "rfc6675.fast-retransmit",
        SendRule::NextSegLost => "rfc6675.next-seg.lost",
        SendRule::NextSegNew => "rfc6675.next-seg.new",
        SendRule::NextSegHole => "rfc6675.next-seg.hole",
        SendRule::NextSegRescue => "rfc6675.next-seg.rescue",
    }
}
