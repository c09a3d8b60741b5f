// The owners of root keys in an engine.
ghost use Rattle.sq_serving.specs.Becoming.{desk_value, WritesOwner};

use crate::desk::ServeDesk;
use crate::serve_answer::ServeAnswer;
use sq_schema::Root;
use std::io::Write;

impl<W: Write + Drop> ServeDesk<W> {
    /// Writes which partition owns `root` by the plan in force: while rows move, by the plan before
    /// the move.
    pub(crate) fn say_owner(&mut self, root: Root)
        ensures { WritesOwner root (desk_value W.contents self.old)
            (desk_value W.contents self.new) }
    {
        let part = self.plan.owner(root).number();
        let root = root.number();
        self.say(ServeAnswer::Owner { root, part });
    }
}
