#![tactic(auto)]

// Feeds, which bring the symbols of a word.
pub mod byte_feeds;
pub mod frame_feeds;
mod records;
pub mod traits;

pub use byte_feeds::ByteFeed;
pub use frame_feeds::FrameFeed;
pub use traits::Feed;

#[cfg(test)]
mod tests;
