//! Why a seat of a desk isn't served.
ghost use Rattle.std.specs.Prelude.{◌≡◌};
ghost use Rattle.pd_cli.specs.DeskFaults.{serve_fault_of_show, serve_fault_of_desk};

use pd_desk::DeskFault;
use pd_protocol::ServeFault;
use pd_seat::ShowFault;

/// Why a report isn't shown, as a fault of serving.
pub fn serve_fault_of_show(fault: ShowFault) -> ServeFault
    ensures { result ≡ serve_fault_of_show fault }
{
    match fault {
        ShowFault::Differs => ServeFault::Differs,
        ShowFault::OutOfMemory => ServeFault::OutOfMemory,
    }
}

/// Why a desk refuses, as a fault of serving.
pub fn serve_fault_of_desk(fault: DeskFault) -> ServeFault
    ensures { result ≡ serve_fault_of_desk fault }
{
    match fault {
        DeskFault::NoWorkers => ServeFault::NoWorkers,
        DeskFault::Differs => ServeFault::Differs,
        DeskFault::HistoryFull => ServeFault::HistoryFull,
        DeskFault::OutOfMemory => ServeFault::OutOfMemory,
    }
}
