mod device;
mod making;
mod transforms;
