ghost use Rattle.std.specs.Prelude.{◌≡◌, ◌≢◌, ◌↔◌, ◌<◌, Some, IfOk, IsErr};
ghost use Rattle.mvm_monitor.specs.Monitors.{entered, exited, IfEntered, IsMonitor, IsOwnedByAnother};
ghost use Rattle.mvm_monitor.specs.declared.answer.Enter.TheVariants.{Blocked};

use crate::answer::{Enter, NotOwner};
use mvm_region::Monitor;

/// Lets a thread into a monitor, unless another thread owns it (Java Language Specification 17.1: lock).
pub fn enter(monitor: Monitor, thread: u32) -> Enter
    requires { IsMonitor monitor }
    ensures blocked { (result ≡ Blocked) ↔ IsOwnedByAnother monitor thread }
    ensures entered { IfEntered result (λ new. new ≡ entered monitor thread) }
{
    match monitor.owner {
        Some(owner) if owner != thread => Enter::Blocked,
        Some(_) | None => Enter::Entered(Monitor {
            owner: Some(thread),
            count: monitor.count + 1,
        }),
    }
}

/// Takes back one entry of a thread that owns the monitor (Java Language Specification 17.1: unlock).
pub fn exit(monitor: Monitor, thread: u32) -> Result<Monitor, NotOwner>
    requires { IsMonitor monitor }
    ensures refused { IsErr result ↔ (monitor.owner ≢ Some thread) }
    ensures exited { IfOk result (λ new. new ≡ exited monitor) }
{
    if monitor.owner != Some(thread) {
        return Err(NotOwner);
    }
    if monitor.count == 1 {
        return Ok(Monitor {
            owner: None,
            count: 0,
        });
    }
    Ok(Monitor {
        owner: monitor.owner,
        count: monitor.count - 1,
    })
}
