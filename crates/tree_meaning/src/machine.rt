// What tasks take and leave.
ghost use Rattle.std.specs.Prelude.{◌≡◌};
ghost use Rattle.tree_meaning.specs.Tasks.{with_way, without_values, in_activation};

use crate::activation::Activation;
use crate::scene::Scene;
use crate::store::Store;
use crate::way::Way;
use containers::Vector;

/// What a run holds besides what is still to be done.
#[derive(Drop)]
pub(crate) struct Machine<'a> {
    /// The function that runs.
    pub(crate) scene: Scene<'a>,
    /// The values of the outermost calls, `&&`, `||` and `?:` of the expression that is evaluated.
    pub(crate) values: Vector<u64>,
    /// The last value.
    pub(crate) value: u64,
    /// Where the last statement left off.
    pub(crate) way: Way,
    pub(crate) store: Store<'a>,
}

impl<'a> Machine<'a> {
    /// Takes the values, and leaves none.
    pub(crate) fn take_values(&mut self) -> Vector<u64>
        ensures values { result ≡ self.old.values }
        ensures rest { self.new ≡ without_values self.old }
    {
        let none = Vector::new(self.scene.alloc());
        std::mem::replace(&mut self.values, none)
    }

    /// A function is called: what ran until then.
    pub(crate) fn enter(&mut self, activation: Activation) -> Scene<'a>
        ensures caller { result ≡ self.old.scene }
        ensures rest { self.new ≡ in_activation self.old activation }
    {
        let scene = Scene::new(self.scene.alloc(), self.scene.unit(), activation);
        std::mem::replace(&mut self.scene, scene)
    }

    /// A statement leaves off.
    pub(crate) fn leave_off(&mut self, way: Way)
        ensures { self.new ≡ with_way self.old way self.old.store }
    {
        self.value = 0;
        self.way = way;
    }
}
