ghost use Rattle.std.specs.Prelude.{◌≡◌, ◌<◌, [], length, slice_set, IfOk};
ghost use Rattle.mvm_isolate.specs.Beginning.{bare};
ghost use Rattle.mvm_isolate.specs.Monitors.{without_waiter};
ghost use Rattle.mvm_isolate.specs.Numbered.{name_at, named, IsClass};
ghost use Rattle.mvm_isolate.specs.Sound.{Grows};
ghost use Rattle.mvm_isolate.specs.Thrown.{name_of_thrown, STREAM, THREAD};
ghost use Rattle.mvm_monitor.specs.Waits.{longest};

use crate::known::{Known, place_of_thrown};
use crate::load::known_classes;
use mvm_base::{Line, List, OutOfMemory, Steps};
use mvm_history::Launch;
use mvm_mirror::{Arrays, Mirrors};
use mvm_native::{Env, LinkUse, Thrown};
use mvm_table::Table;
use std::alloc::Global;
use std::marker::Model;
use std::snapshot::Snapshot;
use std::sync::ledger::Ledger;

/// What the threads of an isolate share: its heap, what it keeps of its classes, its output, its waiting threads and its links
/// (JVM Specification 2.5.3 to 2.5.5).
#[derive(Drop)]
pub struct Isolate {
    pub(crate) env: Env,
    pub(crate) mirrors: Mirrors,
    pub(crate) arrays: Arrays,
    pub(crate) files: Snapshot<Table>,
    pub(crate) known: Known,
}

impl Model for Isolate {
    ghost use Rattle.mvm_isolate.specs.Numbered.{Numbered};
    ghost use Rattle.mvm_isolate.specs.Sound.{IsSound};

    ghost Value = { Numbered };

    ghost view = { λ i. record { env = i.env; mirrors = i.mirrors; arrays = i.arrays; files = i.files.value.files } };

    ghost invariant = { λ i. IsSound (record { env = i.env; mirrors = i.mirrors; arrays = i.arrays; files = i.files.value.files }) i.known };
}

impl Isolate {
    /// An isolate without objects, of which the classes are those of a set of the table. The classes of which the machine itself makes
    /// objects are loaded here.
    ///
    /// # Errors
    ///
    /// `OutOfMemory`. So would a fault of the load of a built-in class be answered; that it never comes no clause says.
    pub fn new<L: Ledger>(
        env: Env,
        table: &Table,
        steps: &mut Steps<L>,
    ) -> Result<Isolate, OutOfMemory>
        requires set { env.launch.set < length table.now.files }
        requires empty { env.heap.state.objects ≡ [] }
        ensures named { IfOk result (λ isolate. named isolate ≡ bare env) }
        ensures files { IfOk result (λ isolate. isolate.files ≡ table.now.files) }
        ensures env { IfOk result (λ isolate. isolate.env ≡ env) }
    {
        let _count = env.heap.count();
        let mut mirrors = Mirrors::new(env.alloc);
        let known = known_classes(env.alloc, &mut mirrors, table, env.launch.set, steps)?;
        let arrays = Arrays::new(env.alloc);
        Ok(Isolate {
            env,
            mirrors,
            arrays,
            files: Snapshot::of(table),
            known,
        })
    }

    /// Where the memory comes from that the machine itself takes.
    pub fn alloc(&self) -> Global
        ensures { result ≡ self.now.env.alloc }
    {
        self.env.alloc
    }

    /// What the isolate was made from.
    #[tactic(auto, unfolding(crate::specs::Numbered::named))]
    pub fn launch(&self) -> &Launch
        ensures { result.now ≡ self.now.env.launch }
    {
        &self.env.launch
    }

    /// What it has printed, in UTF-8.
    #[tactic(auto, unfolding(crate::specs::Numbered::named))]
    pub fn output(&self) -> &Line
        ensures { result.now ≡ (named self.now).output }
    {
        &self.env.output
    }

    /// How each link of the launch stands on this side, by its number.
    pub fn links(&self) -> &List<LinkUse>
        ensures { result.now ≡ self.now.env.links }
    {
        &self.env.links
    }

    /// How a link stands on this side from now on.
    pub fn set_link(&mut self, link: usize, link_use: LinkUse)
        requires { link < length self.old.env.links }
        ensures links { self.new.env.links ≡ slice_set self.old.env.links link link_use }
        // By names nothing changes.
        ensures same { named self.new ≡ named self.old }
        ensures grows { Grows self.old self.new }
    {
        self.env.links.set(link, link_use);
    }

    /// Takes out the thread that waits longest on an object, or answers `None` where none waits on it (Java Language
    /// Specification 17.2.2). It takes no memory.
    #[tactic(auto, unfolding(crate::specs::Numbered::named))]
    pub fn notify(&mut self, object: u32) -> Option<u32>
        ensures thread { result ≡ longest object (named self.old).waits.waiters }
        ensures others { named self.new ≡ without_waiter object (named self.old) }
        ensures links { self.new.env.links ≡ self.old.env.links }
        ensures grows { Grows self.old self.new }
    {
        self.env.waits.notify(object)
    }

    /// The number of the class of a throwable of the machine's own.
    pub fn thrown_class(&self, thrown: Thrown) -> u32
        ensures there { IsClass self.now result }
        ensures name { name_at self.now result ≡ name_of_thrown thrown }
    {
        self.known.thrown.as_slice()[place_of_thrown(thrown)]
    }

    /// The number of the class of `System.out`, `java/io/PrintStream`.
    pub fn stream_class(&self) -> u32
        ensures there { IsClass self.now result }
        ensures name { name_at self.now result ≡ STREAM }
    {
        self.known.stream
    }

    /// The number of the class of threads, `java/lang/Thread`.
    pub fn thread_class(&self) -> u32
        ensures there { IsClass self.now result }
        ensures name { name_at self.now result ≡ THREAD }
    {
        self.known.thread
    }

    /// What the isolate was made of, for who makes the next one. Its objects are given up.
    pub fn give_up(self) -> Env
        ensures { result ≡ self.env }
    {
        let Isolate {
            env,
            mirrors,
            arrays,
            files: _,
            known,
        } = self;
        drop(mirrors);
        drop(arrays);
        drop(known);
        env
    }
}
