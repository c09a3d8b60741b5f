// The ends of links that a node has.
ghost use Rattle.std.specs.Prelude.{◌≡◌, ◌<◌, length, Some, None, OnOk, OnErr, IfErr, IfSome, IfNone};
ghost use Rattle.sq_node.specs.Ends.{EndValue, passed_on, IsEnd, WasFull, WasEmpty};

use sq_shared::{LinkPass, Receives, RecvPass, SendPass, Sends, SharedLink, Side};
use sq_store::Chunk;
use std::marker::Model;
use std::sync::Wait;

/// An end of a link, with its pass.
#[derive(Drop)]
pub struct LinkEnd<P> {
    /// The place of the link among those of the run.
    pub link: usize,
    /// The right to send on the link, or to receive from it.
    pub pass: P,
}

pub type SendEnd = LinkEnd<SendPass>;

pub type RecvEnd = LinkEnd<RecvPass>;

/// A node's end of its link with one partition, if there is one.
#[derive(Drop)]
pub struct PartEnd<S: Side> {
    end: Option<LinkEnd<LinkPass<S>>>,
}

/// A node's sending end of its link to a partition.
pub type Sender = PartEnd<Sends>;

/// A node's receiving end of its link from a partition.
pub type Receiver = PartEnd<Receives>;

impl<S: Side> Model for PartEnd<S> {
    ghost use Rattle.std.specs.Prelude.{Option};
    ghost use Rattle.sq_node.specs.Ends.{EndValue};

    ghost Value = { Option EndValue };

    ghost view = { λ e. e.end };
}

impl<S: Side> PartEnd<S> {
    /// Returns a holder of `end`, or of none.
    pub(crate) fn new(end: Option<LinkEnd<LinkPass<S>>>) -> PartEnd<S>
        ensures { result ≡ end }
    {
        PartEnd { end }
    }

    /// Takes the end out and leaves none.
    pub(crate) fn take(&mut self) -> PartEnd<S>
        ensures taken { result ≡ self.old }
        ensures left { self.new ≡ None }
    {
        PartEnd {
            end: self.end.take(),
        }
    }

    pub fn into_end(self) -> Option<LinkEnd<LinkPass<S>>>
        ensures { result ≡ self }
    {
        self.end
    }
}

impl PartEnd<Sends> {
    /// Sends `chunk`. It is returned if there is no link, or the link was full at one moment of the
    /// call.
    pub(crate) fn send<R: Wait>(
        &mut self,
        rt: &R,
        links: &[SharedLink],
        chunk: Chunk,
    ) -> Result<(), Chunk>
        requires { (end : EndValue) → self.old ≡ Some end → IsEnd links.now end }
        ensures sent { OnOk result ((end : EndValue) × (self.old ≡ Some end)
            × (self.new ≡ Some (passed_on end chunk))) }
        ensures refused { IfErr result (λ back. (back ≡ chunk) × (self.new ≡ self.old)) }
        ensures full { OnErr result ((end : EndValue) → self.old ≡ Some end
            → WasFull links.now end) }
    {
        let Some(LinkEnd { link, mut pass }) = self.end.take() else {
            return Err(chunk);
        };
        let sent = links[link].send(rt, &mut pass, chunk);
        self.end = Some(LinkEnd { link, pass });
        sent
    }
}

impl PartEnd<Receives> {
    /// Returns the next chunk, or `None` if there is no link or the link was empty at one moment of
    /// the call.
    pub(crate) fn recv<R: Wait>(&mut self, rt: &R, links: &[SharedLink]) -> Option<Chunk>
        requires { (end : EndValue) → self.old ≡ Some end → IsEnd links.now end }
        ensures received { IfSome result (λ chunk.
            (end : EndValue) × (self.old ≡ Some end) × (self.new ≡ Some (passed_on end chunk))) }
        ensures none { IfNone result (self.new ≡ self.old) }
        ensures empty { IfNone result ((end : EndValue) → self.old ≡ Some end → WasEmpty end) }
    {
        let LinkEnd { link, mut pass } = self.end.take()?;
        let received = links[link].recv(rt, &mut pass);
        self.end = Some(LinkEnd { link, pass });
        received
    }
}
