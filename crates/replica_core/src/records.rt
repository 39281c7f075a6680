//! A replica, and what each event makes of it.

ghost use Rattle.std.specs.Prelude.{◌≡◌, ◌<◌, ◌≤◌, IfSome, length, slice_get};
ghost use Rattle.replica_core.specs.Extents.{IsPacket};
ghost use Rattle.replica_core.specs.Transitions.{record_after, reply, present, set_writer, stream_by};
ghost use Rattle.replica_core.specs.Transitions.{enqueue, extend, oldest_of, acknowledge, end_connection, mark_broken};
ghost use Rattle.replica_core.specs.Transitions.{new_transition, append_transition, append_recovery_transition};
ghost use Rattle.replica_core.specs.Transitions.{stream_recovery_transition, close_recovery_transition};
ghost use Rattle.replica_core.specs.Transitions.{packet_transition};
ghost use Rattle.replica_core.specs.Transitions.{extent_transition, ack_transition, init_transition, update_transition};
ghost use Rattle.replica_core.specs.Transitions.{read_transition, give_transition, transition, IsLawful};

use crate::ack_queue::{AckQueue, MAX_PENDING, PendingPacket};
use crate::events::{Answer, Event};
use crate::extents::PacketExtent;
use crate::info::ReplicaInfo;
use crate::refusals::Refusal;
use crate::streams::Stream;
use hd_base::{BlockId, ConnId, ReplicaState, Stamp, SumRule};

/// All that is known of a replica but its bytes.
#[derive(Debug, Drop)]
pub struct ReplicaRecord {
    /// The block.
    pub block: BlockId,
    /// What is there, `None` where the replica is absent.
    pub info: Option<ReplicaInfo>,
    /// The stream that writes the replica, `None` where nobody does.
    pub stream: Option<Stream>,
    /// The packets that were taken and aren't acked yet.
    pub pending: AckQueue,
    /// Whether a call on the replica's files failed.
    pub is_broken: bool,
}

impl ReplicaRecord {
    /// What is there, of a replica that is neither broken nor absent.
    fn present(&self) -> Result<ReplicaInfo, Refusal>
        ensures { result ≡ present self.now }
    {
        if self.is_broken {
            return Err(Refusal::Broken);
        }
        self.info.ok_or(Refusal::NoReplica)
    }

    /// The replica holds this, and this connection writes it from now on, or nobody does.
    fn set_writer(&mut self, info: ReplicaInfo, writer: Option<ConnId>) -> Answer
        ensures answer { result ≡ Answer.Done }
        ensures replica { self.new ≡ set_writer self.old info writer }
    {
        self.info = Some(info);
        self.stream = writer.map(Stream::new);
        self.pending.clear();
        Answer::Done
    }

    /// A new replica in this state, which this connection writes.
    fn create(
        &mut self,
        original: ReplicaState,
        conn: ConnId,
        stamp: Stamp,
        sums: SumRule,
    ) -> Result<Answer, Refusal>
        ensures answer { result ≡ reply (new_transition self.old original conn stamp sums) }
        ensures replica { self.new ≡ record_after self.old (new_transition self.old original conn stamp sums) }
    {
        if self.is_broken {
            return Err(Refusal::Broken);
        }
        if self.info.is_some() {
            return Err(Refusal::Exists);
        }
        let info = ReplicaInfo::settled_at(original, stamp, sums, 0);
        Ok(self.set_writer(info, Some(conn)))
    }

    /// An append.
    fn append(
        &mut self,
        conn: ConnId,
        named: Stamp,
        new: Stamp,
        length: u64,
    ) -> Result<Answer, Refusal>
        ensures answer { result ≡ reply (append_transition self.old conn named new length) }
        ensures replica { self.new ≡ record_after self.old (append_transition self.old conn named new length) }
    {
        let info = self.present()?.reopen(named, new, length)?;
        Ok(self.set_writer(info, Some(conn)))
    }

    /// The recovery of an append.
    fn append_recovery(
        &mut self,
        conn: ConnId,
        named: Stamp,
        new: Stamp,
        length: u64,
    ) -> Result<Answer, Refusal>
        ensures answer { result ≡ reply (append_recovery_transition self.old conn named new length) }
        ensures replica { self.new ≡
            record_after self.old (append_recovery_transition self.old conn named new length) }
    {
        let info = self
            .present()?
            .recover_setup(named, new, length, ReplicaState::Rbw)?;
        Ok(self.set_writer(info, Some(conn)))
    }

    /// The recovery of a stream.
    fn stream_recovery(
        &mut self,
        conn: ConnId,
        named: Stamp,
        new: Stamp,
        min: u64,
        max: u64,
    ) -> Result<Answer, Refusal>
        ensures answer { result ≡ reply (stream_recovery_transition self.old conn named new min max) }
        ensures replica { self.new ≡
            record_after self.old (stream_recovery_transition self.old conn named new min max) }
    {
        let info = self.present()?.recover_stream(named, new, min, max)?;
        Ok(self.set_writer(info, Some(conn)))
    }

    /// The recovery of a close.
    fn close_recovery(&mut self, named: Stamp, new: Stamp, length: u64) -> Result<Answer, Refusal>
        ensures answer { result ≡ reply (close_recovery_transition self.old named new length) }
        ensures replica { self.new ≡ record_after self.old (close_recovery_transition self.old named new length) }
    {
        let info = self
            .present()?
            .recover_setup(named, new, length, ReplicaState::Finalized)?;
        Ok(self.set_writer(info, None))
    }

    /// The stream, where this connection writes.
    fn stream_by(&self, conn: ConnId) -> Result<Stream, Refusal>
        ensures { result ≡ stream_by self.now.stream conn }
    {
        match self.stream {
            Some(stream) if stream.conn == conn => Ok(stream),
            _ => Err(Refusal::NotWriter),
        }
    }

    /// A packet, which is taken from the connection that writes.
    fn packet(&mut self, conn: ConnId, extent: &PacketExtent) -> Result<Answer, Refusal>
        requires room { length self.old.pending < MAX_PENDING }
        requires bad { IfSome extent.now.bad (λ bad. bad < extent.now.sums) }
        ensures answer { result ≡ reply (packet_transition self.old conn extent.now) }
        ensures replica { self.new ≡ record_after self.old (packet_transition self.old conn extent.now) }
    {
        let info = self.present()?;
        if !matches!(info.state(), ReplicaState::Rbw | ReplicaState::Temporary) {
            return Err(Refusal::NotWriter);
        }
        let stream = self.stream_by(conn)?;
        self.take_extent(info, stream, extent)
    }

    /// Takes a packet of the writing stream.
    #[tactic(auto, unfolding(crate::specs::Transitions::extent_transition))]
    fn take_extent(
        &mut self,
        info: ReplicaInfo,
        stream: Stream,
        extent: &PacketExtent,
    ) -> Result<Answer, Refusal>
        requires room { length self.old.pending < MAX_PENDING }
        requires bad { IfSome extent.now.bad (λ bad. bad < extent.now.sums) }
        ensures answer { result ≡ reply (extent_transition self.old info stream extent.now) }
        ensures replica { self.new ≡ record_after self.old (extent_transition self.old info stream extent.now) }
    {
        if extent.seqno == -1 {
            let packet = extent.heartbeat()?;
            return Ok(self.enqueue(packet));
        }
        let stream = stream.after(extent)?;
        let packet = extent.packet(info.sums, info.written)?;
        Ok(self.extend(info, stream, packet))
    }

    /// A packet's bytes are written up to its end, and it joins those that are pending.
    fn extend(&mut self, info: ReplicaInfo, stream: Stream, packet: PendingPacket) -> Answer
        requires { length self.old.pending < MAX_PENDING }
        ensures answer { result ≡ Answer.Done }
        ensures replica { self.new ≡ extend self.old info stream packet }
    {
        self.info = Some(info.extend_written(packet.end));
        self.stream = Some(stream);
        self.enqueue(packet)
    }

    /// A packet joins those that are pending.
    fn enqueue(&mut self, packet: PendingPacket) -> Answer
        requires { length self.old.pending < MAX_PENDING }
        ensures answer { result ≡ Answer.Done }
        ensures replica { self.new ≡ enqueue self.old packet }
    {
        self.pending.push(packet);
        Answer::Done
    }

    /// An ack of the oldest pending packet.
    fn ack(&mut self, conn: ConnId, seqno: i64, good: bool) -> Result<Answer, Refusal>
        ensures answer { result ≡ reply (ack_transition self.old conn seqno good) }
        ensures replica { self.new ≡ record_after self.old (ack_transition self.old conn seqno good) }
    {
        let info = self.present()?;
        self.stream_by(conn)?;
        let packet = self.oldest_with(seqno)?;
        Ok(self.acknowledge(info, packet, good))
    }

    /// The oldest pending packet, which is to have this seqno.
    fn oldest_with(&self, seqno: i64) -> Result<PendingPacket, Refusal>
        ensures { result ≡ oldest_of (slice_get self.now.pending 0) seqno }
    {
        match self.pending.oldest() {
            Some(packet) if packet.seqno == seqno => Ok(packet),
            oldest => Err(Refusal::Seqno {
                want: oldest.map(|packet| packet.seqno),
                got: seqno,
            }),
        }
    }

    /// The oldest packet leaves the queue. Where its ack is good, its bytes are acked; after that of
    /// the last packet nobody writes, and a replica being written is finalized.
    fn acknowledge(&mut self, info: ReplicaInfo, packet: PendingPacket, good: bool) -> Answer
        ensures answer { result ≡ Answer.Done }
        ensures replica { self.new ≡ acknowledge self.old info packet good }
    {
        self.pending.drop_oldest();
        if !good {
            return Answer::Done;
        }
        let info = info.advance_acked(packet.end);
        if packet.last {
            return self.set_writer(info.close_stream(), None);
        }
        self.info = Some(info);
        Answer::Done
    }

    /// The end of a connection.
    fn end_connection(&mut self, conn: ConnId) -> Answer
        ensures answer { result ≡ Answer.Done }
        ensures replica { self.new ≡ end_connection self.old conn }
    {
        if self.stream.is_some_and(|stream| stream.conn == conn) {
            self.stream = None;
            self.pending.clear();
        }
        Answer::Done
    }

    /// The beginning of a block recovery.
    fn init(&mut self, named: Stamp, recovery: Stamp) -> Result<Answer, Refusal>
        requires { 1 ≤ recovery.0 }
        ensures answer { result ≡ reply (init_transition self.old named recovery) }
        ensures replica { self.new ≡ record_after self.old (init_transition self.old named recovery) }
    {
        let info = self.present()?;
        self.set_writer(info.begin_recovery(named, recovery)?, None);
        Ok(Answer::Info {
            state: info.original,
            stamp: info.stamp,
            length: info.written,
        })
    }

    /// The end of a block recovery.
    fn update(&mut self, recovery: Stamp, length: u64) -> Result<Answer, Refusal>
        ensures answer { result ≡ reply (update_transition self.old recovery length) }
        ensures replica { self.new ≡ record_after self.old (update_transition self.old recovery length) }
    {
        let info = self.present()?.end_recovery(recovery, length)?;
        Ok(self.set_writer(info, None))
    }

    /// A read, which changes nothing.
    fn read(&self, named: Stamp, offset: u64, length: u64) -> Result<Answer, Refusal>
        ensures answer { result ≡ reply (read_transition self.now named offset length) }
        ensures same { record_after self.now (read_transition self.now named offset length) ≡ self.now }
    {
        let length = self.present()?.readable(named, offset, length)?;
        Ok(Answer::Visible { length })
    }

    /// A transfer, which changes nothing.
    fn give(&self, named: Stamp, offset: u64, length: u64) -> Result<Answer, Refusal>
        ensures answer { result ≡ reply (give_transition self.now named offset length) }
        ensures same { record_after self.now (give_transition self.now named offset length) ≡ self.now }
    {
        let length = self.present()?.give(named, offset, length)?;
        Ok(Answer::Visible { length })
    }

    /// A failed call on the files.
    pub fn mark_broken(&mut self) -> Answer
        ensures answer { result ≡ Answer.Done }
        ensures replica { self.new ≡ mark_broken self.old }
    {
        self.is_broken = true;
        self.stream = None;
        self.pending.clear();
        Answer::Done
    }

    /// Takes an event, or refuses it, which changes nothing.
    #[tactic(auto, unfolding(crate::specs::Transitions::transition))]
    pub fn take(&mut self, event: &Event) -> Result<Answer, Refusal>
        requires room { IsPacket event.now → length self.old.pending < MAX_PENDING }
        requires lawful { IsLawful event.now }
        ensures answer { result ≡ reply (transition self.old event.now) }
        ensures replica { self.new ≡ record_after self.old (transition self.old event.now) }
    {
        match *event {
            Event::Create { conn, stamp, sums } => {
                self.create(ReplicaState::Rbw, conn, stamp, sums)
            }
            Event::Temporary { conn, stamp, sums } => {
                self.create(ReplicaState::Temporary, conn, stamp, sums)
            }
            Event::Append {
                conn,
                named,
                new,
                length,
            } => self.append(conn, named, new, length),
            Event::AppendRecovery {
                conn,
                named,
                new,
                length,
            } => self.append_recovery(conn, named, new, length),
            Event::StreamRecovery {
                conn,
                named,
                new,
                min,
                max,
            } => self.stream_recovery(conn, named, new, min, max),
            Event::CloseRecovery { named, new, length } => self.close_recovery(named, new, length),
            Event::Packet { conn, .. } => self.packet(conn, &PacketExtent::of(event)),
            Event::Ack { conn, seqno, good } => self.ack(conn, seqno, good),
            Event::Ended { conn } => Ok(self.end_connection(conn)),
            Event::Init { named, recovery } => self.init(named, recovery),
            Event::Update { recovery, length } => self.update(recovery, length),
            Event::Read {
                named,
                offset,
                length,
            } => self.read(named, offset, length),
            Event::Give {
                named,
                offset,
                length,
            } => self.give(named, offset, length),
            Event::FileFault => Ok(self.mark_broken()),
        }
    }
}
