// The sheet on worked figures, over both number systems.
#![tactic(auto)]

#[cfg(test)]
mod closed;
#[cfg(test)]
mod entered;
#[cfg(test)]
mod figures;
#[cfg(test)]
mod presented;
#[cfg(test)]
mod settled;
#[cfg(test)]
mod worked;
