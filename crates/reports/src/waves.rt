//! Waves: the values of a circuit's inputs, latches and properties, step by step, as a value change
//! dump (IEEE 1364), which viewers of waves read. The circuit is simulated while the text goes
//! through a buffer, so no step is kept.

mod dump;
mod moment;
mod names;
mod probes;
mod room;
mod times;
mod values;

pub use dump::write_waves;
pub use names::wave_names;
pub use probes::probed;
pub use room::WaveRoom;
