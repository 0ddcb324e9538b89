//! Which backends there are, and one value for each of them.
ghost use Rattle.std.specs.Prelude.{◌≡◌, ◌≤◌, ◌++◌, OnOk, IfErr, codes, length};
ghost use Rattle.sd_model_outside.specs.Backend.{Backend, backend_name, backends};
ghost use Rattle.sd_outside.specs.Backends.{Done, StopsAt, at, kind_of, of_kind};

/// A kind of backend.
#[derive(Clone, Copy, Debug, PartialEq, Eq)]
pub enum BackendKind {
    Graphite,
    Console,
}

/// How many backends there are.
pub const BACKEND_COUNT: usize = 2;

/// All kinds, in the order in which backends are opened, and a record is given to them.
pub const BACKENDS: [BackendKind; BACKEND_COUNT] = [BackendKind::Graphite, BackendKind::Console];

/// What a list of names of backends may have, in words. The repeater is named beside them.
pub const BACKENDS_IN_WORDS: &str =
    "a list of \"graphite\", \"console\" and \"repeater\", each at most once";

impl BackendKind {
    /// Its name in settings and in the log.
    pub fn name(self) -> &'static str
        ensures { result.now ≡ backend_name (kind_of self) }
    {
        match self {
            BackendKind::Graphite => "graphite",
            BackendKind::Console => "console",
        }
    }

    /// The name of the total of its faults.
    pub fn faults_name(self) -> &'static [u8]
        ensures name { result.now ≡ backend_name (kind_of self) ++ codes "_faults" }
        ensures short { length result.now ≤ 15 }
    {
        match self {
            BackendKind::Graphite => b"graphite_faults",
            BackendKind::Console => b"console_faults",
        }
    }

    /// The name of the total of the texts that its outlet skipped.
    pub fn skipped_name(self) -> &'static [u8]
        ensures name { result.now ≡ backend_name (kind_of self) ++ codes "_skipped" }
        ensures short { length result.now ≤ 16 }
    {
        match self {
            BackendKind::Graphite => b"graphite_skipped",
            BackendKind::Console => b"console_skipped",
        }
    }
}

/// One value for each backend.
#[derive(Clone, Copy, Debug, PartialEq, Eq, Drop)]
pub struct PerBackend<T> {
    pub graphite: T,
    pub console: T,
}

/// What is done with the value of a backend, of each one after another.
pub trait VisitBackend<T> {
    ghost use Rattle.sd_model_outside.specs.Backend.{Backend};

    // What stays from visit to visit.
    ghost Fixed: { Type 0 };

    ghost fixed: { Self → Fixed };

    // A value may be visited.
    ghost allows: { Fixed → T → Type 0 };

    // What a visit of a backend does with its value.
    ghost visits: { Fixed → Backend → T → T → Type 0 };

    /// Visits the value of a backend.
    fn visit(&mut self, kind: BackendKind, value: &mut T)
        requires { allows (fixed self.old) value.old }
        ensures fixed { fixed self.new ≡ fixed self.old }
        ensures visits { visits (fixed self.old) (kind_of kind) value.old value.new };
}

/// What is tried with the value of a backend, of each one after another until one is refused.
pub trait TryBackend<T> {
    ghost use Rattle.sd_model_outside.specs.Backend.{Backend};

    /// Why one is refused.
    type Refusal;

    // What a try does with a backend's value, and what it does where it is refused.
    ghost does: { Self → Backend → T → T → Type 0 };

    ghost fails: { Self → Self.Refusal → Backend → T → T → Type 0 };

    /// Tries it with the value of a backend.
    ///
    /// # Errors
    ///
    /// Where it is refused.
    fn try_one(&self, kind: BackendKind, value: &mut T) -> Result<(), Self::Refusal>
        ensures ok { OnOk result (does self.now (kind_of kind) value.old value.new) }
        ensures refused { IfErr result (λ refusal. fails self.now refusal (kind_of kind) value.old value.new) };
}

impl<T: Copy> PerBackend<T> {
    /// The same value for each backend.
    pub fn of(value: T) -> PerBackend<T>
        ensures { (b : Backend) → at result b ≡ value }
    {
        PerBackend {
            graphite: value,
            console: value,
        }
    }
}

impl<T> PerBackend<T> {
    /// What is made for each backend.
    pub fn from_fn<F: Fn(BackendKind) -> T>(make: F) -> PerBackend<T>
        requires { F.IsAlwaysCallable make }
        ensures { (b : Backend) → F.post make (of_kind b) (at result b) }
    {
        PerBackend {
            graphite: make(BackendKind::Graphite),
            console: make(BackendKind::Console),
        }
    }

    /// The value of a backend.
    pub fn at(&self, kind: BackendKind) -> &T
        ensures { result.now ≡ at self.now (kind_of kind) }
    {
        match kind {
            BackendKind::Graphite => &self.graphite,
            BackendKind::Console => &self.console,
        }
    }

    /// Visits the value of each backend, in their order.
    pub fn visit_each<V: VisitBackend<T>>(&mut self, visitor: &mut V)
        requires { (b : Backend) → V.allows (V.fixed visitor.old) (at self.old b) }
        ensures fixed { V.fixed visitor.new ≡ V.fixed visitor.old }
        ensures visits { (b : Backend) → V.visits (V.fixed visitor.old) b (at self.old b) (at self.new b) }
    {
        visitor.visit(BackendKind::Graphite, &mut self.graphite);
        visitor.visit(BackendKind::Console, &mut self.console);
    }

    /// Tries something with the value of each backend, in their order, until one is refused.
    ///
    /// # Errors
    ///
    /// Where one was refused. Those before it were tried, and those behind it weren't.
    pub fn try_each<V: TryBackend<T>>(&mut self, tried: &V) -> Result<(), V::Refusal>
        ensures ok { OnOk result (Done (V.does tried.now) backends (at self.old) (at self.new)) }
        ensures refused { IfErr result (λ refusal. StopsAt (V.does tried.now) (V.fails tried.now refusal) backends (at self.old) (at self.new)) }
    {
        tried.try_one(BackendKind::Graphite, &mut self.graphite)?;
        tried.try_one(BackendKind::Console, &mut self.console)
    }
}
