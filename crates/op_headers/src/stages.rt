//! The stages of a pipeline's construction, with their numbers in messages.

ghost use Rattle.std.specs.Prelude.{◌≡◌, ◌<◌, IfSome, IsNone, ◌↔◌};
ghost use Rattle.op_headers.specs.Stages.{stage_number};

/// The stage of a pipeline's construction, in the order of its numbers 0 to 8 in messages (HDFS
/// `BlockConstructionStage`).
#[derive(Clone, Copy, Debug, PartialEq, Eq)]
pub enum Stage {
    /// A pipeline is set up to append to a block.
    PipelineSetupAppend,
    /// An append whose pipeline failed is set up again.
    PipelineSetupAppendRecovery,
    /// Bytes of the block are sent.
    DataStreaming,
    /// A pipeline that failed while bytes were sent is set up again.
    PipelineSetupStreamingRecovery,
    /// The block is complete.
    PipelineClose,
    /// A pipeline that failed while it closed is set up again.
    PipelineCloseRecovery,
    /// A pipeline is set up for a new block.
    PipelineSetupCreate,
    /// A replica being written is sent to another node.
    TransferRbw,
    /// A finalized replica is sent to another node.
    TransferFinalized,
}

impl Stage {
    /// The stage's number in messages.
    pub fn number(&self) -> u32
        ensures { result ≡ stage_number self.now }
    {
        match self {
            Stage::PipelineSetupAppend => 0,
            Stage::PipelineSetupAppendRecovery => 1,
            Stage::DataStreaming => 2,
            Stage::PipelineSetupStreamingRecovery => 3,
            Stage::PipelineClose => 4,
            Stage::PipelineCloseRecovery => 5,
            Stage::PipelineSetupCreate => 6,
            Stage::TransferRbw => 7,
            Stage::TransferFinalized => 8,
        }
    }

    /// The stage with this number in messages, `None` past 8.
    pub fn from_number(number: u32) -> Option<Stage>
        ensures found { IfSome result (λ stage. stage_number stage ≡ number) }
        ensures none { IsNone result ↔ (8 < number) }
    {
        match number {
            0 => Some(Stage::PipelineSetupAppend),
            1 => Some(Stage::PipelineSetupAppendRecovery),
            2 => Some(Stage::DataStreaming),
            3 => Some(Stage::PipelineSetupStreamingRecovery),
            4 => Some(Stage::PipelineClose),
            5 => Some(Stage::PipelineCloseRecovery),
            6 => Some(Stage::PipelineSetupCreate),
            7 => Some(Stage::TransferRbw),
            8 => Some(Stage::TransferFinalized),
            _ => None,
        }
    }
}
