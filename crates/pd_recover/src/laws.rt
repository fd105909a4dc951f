//! Laws of congestion control and loss recovery: a function without code, whose contract is the laws.
ghost use Rattle.pd_recover.specs.Laws.{StaysWithin, BeginsByUses, CountsOctets, KeepsSlowStart, RestartsWhenIdle, DefaultsAreRfc5681, SendsInProportion, CountsRecovery, Rfc6675IgnoresPrr, EndsInTime, AcksKeepRecovery, RescuesOnce, KeepsWindow, SparesSacked, ChoosesSendable};

/// The laws of congestion control and loss recovery, whatever happens.
pub fn law_congestion_control_and_loss_recovery()
    ensures windows { StaysWithin }
    ensures consulted_settings { BeginsByUses }
    ensures counting { CountsOctets }
    ensures slow_start { KeepsSlowStart }
    ensures idle { RestartsWhenIdle }
    ensures defaults { DefaultsAreRfc5681 }
    ensures proportion { SendsInProportion }
    ensures counts { CountsRecovery }
    ensures pipe { Rfc6675IgnoresPrr }
    ensures ends { EndsInTime }
    ensures rests { AcksKeepRecovery }
    ensures rescues { RescuesOnce }
    ensures step_c { KeepsWindow }
    ensures sacked { SparesSacked }
    ensures sendable { ChoosesSendable }
{}
