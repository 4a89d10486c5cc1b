//! Resolvers: who grants reserved interactions.
ghost use Rattle.std.specs.Prelude.{◌≡◌, ◌≢◌, ◌↔◌, IfNone, IfSome, IsTrue};
ghost use Rattle.bip_host.specs.declared.hosts.Tables.{Tables};
ghost use Rattle.bipr.specs.Resolvers.{NeedsCentral, kind_named, resolver_name, tables_name};

use bip_host::{Kind, Tables};

/// Who grants reserved interactions: the form of the third layer (docs/PROTOCOL.md, "Banks").
#[derive(Clone, Copy, Debug, PartialEq, Eq)]
pub enum Resolver {
    /// One bank with one table.
    Central,
    /// A token ring, whose one table goes round.
    Ring,
    /// Dining philosophers, each with a table, who share forks.
    Forks,
}

impl Resolver {
    /// The kind of third layer that it names.
    pub fn kind(self) -> Kind
        ensures { result ≡ kind_named self }
    {
        match self {
            Resolver::Central => Kind::Central,
            Resolver::Ring => Kind::Ring,
            Resolver::Forks => Kind::Forks,
        }
    }
}

/// The name of the central bank.
const CENTRAL: &str = "central";

/// The name of the token ring.
const RING: &str = "ring";

/// The name of the dining philosophers.
const FORKS: &str = "forks";

/// The names of all resolvers.
pub const RESOLVERS: &[&str] = &[CENTRAL, RING, FORKS];

/// How threads of a host are built round its third layer: who grants, and how tables are shared.
#[derive(Clone, Copy, Debug, PartialEq, Eq)]
pub struct HostForm {
    pub resolver: Resolver,
    pub tables: Tables,
}

impl HostForm {
    /// The kind of third layer that the resolver names.
    pub fn kind(&self) -> Kind
        ensures { result ≡ kind_named self.now.resolver }
    {
        self.resolver.kind()
    }

    /// Whether row words are asked for with another resolver than the central bank, which alone can
    /// have them.
    pub fn needs_central(&self) -> bool
        ensures { IsTrue result ↔ NeedsCentral self.now }
    {
        self.tables == Tables::Words && self.resolver != Resolver::Central
    }
}

/// The name of tables behind a lock, or with their stations.
const LOCKED: &str = "locked";

/// The name of row words.
const WORDS: &str = "words";

/// The names of how tables can be shared by threads.
pub const HOSTED_TABLES: &[&str] = &[LOCKED, WORDS];

/// How tables are shared by this name, if it is one.
pub fn tables_named(name: &str) -> Option<Tables>
    ensures some { IfSome result (λ tables. name.now ≡ tables_name tables) }
    ensures none { IfNone result ((tables : Tables) → name.now ≢ tables_name tables) }
{
    if name == LOCKED {
        return Some(Tables::Locked);
    }
    if name == WORDS {
        return Some(Tables::Words);
    }
    None
}

/// The resolver of a name, if it has one.
pub fn resolver_named(name: &str) -> Option<Resolver>
    ensures some { IfSome result (λ resolver. name.now ≡ resolver_name resolver) }
    ensures none { IfNone result ((resolver : Resolver) → name.now ≢ resolver_name resolver) }
{
    if name == CENTRAL {
        return Some(Resolver::Central);
    }
    if name == RING {
        return Some(Resolver::Ring);
    }
    if name == FORKS {
        return Some(Resolver::Forks);
    }
    None
}
