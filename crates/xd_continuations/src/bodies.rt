//! What names of types stand for.

ghost use Rattle.std.specs.Prelude.{◌≡◌};
ghost use Rattle.xd_sound.specs.TypeNames.{AreNumbered};
ghost use Rattle.xd_continuations.specs.Bodies.{node_of};

use xd_doc::Label;
use xd_sound::TypeNames;
use xd_syntax::TypeDef;

/// The definitions by name, and the node that `Any` stands for.
#[derive(Drop)]
pub struct TypeBodies {
    pub names: TypeNames,
    pub any: usize,
}

impl TypeBodies {
    /// The node that a name stands for.
    pub fn find(&self, defs: &[TypeDef], name: &Label) -> Option<usize>
        requires { AreNumbered self.now.names defs.now }
        ensures { result ≡ node_of defs.now self.now.any name.now }
    {
        if name.as_str() == "Any" {
            return Some(self.any);
        }
        self.names.body(defs, name)
    }
}
