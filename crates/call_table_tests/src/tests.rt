mod calls_found;
mod places;
mod play;
mod wishes;
