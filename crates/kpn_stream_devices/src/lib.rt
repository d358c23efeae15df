//! The devices of `kpn stream`: inputs and outputs of items, as lines or as samples.
#![tactic(auto)]

mod floats;
mod formats;
mod head;
mod inputs;
pub mod laws;
mod outputs;
mod window;

pub use formats::{ItemFormat, OutputFormat, SampleFormat, WavFormat};
pub use head::{Head, Wav};
pub use inputs::{Failed, SourceInput, SourceInputs};
pub use outputs::{SinkOutput, SinkOutputs, head_bytes};
pub use window::Window;
